// The parameters of a tag object.
ghost use Rattle.std.specs.Prelude.{◌≡◌};
ghost use Rattle.sci_goto.specs.Forms.{tag_number, scope_of, gives_as, takes_as, giver_form, taker_form};

use crate::tag::{Scope, Tag, TagForm};
use sci_blocks::LinkType;

/// A tag's number.
fn tag_number(n: i64) -> Option<u32>
    ensures { result ≡ tag_number n }
{
    if n >= 1 && n <= 2147483647 {
        Some(n as u32)
    } else {
        None
    }
}

fn scope_of(n: i64) -> Option<Scope>
    ensures { result ≡ scope_of n }
{
    match n {
        1 => Some(Scope::Local),
        3 => Some(Scope::Global),
        _ => None,
    }
}

fn gives_as(link: LinkType, number: Option<u32>, scope: Option<Scope>) -> TagForm
    ensures { result ≡ gives_as link number scope }
{
    match number {
        None => TagForm::WrongParameters,
        Some(number) => match scope {
            None => TagForm::WrongParameters,
            Some(scope) => TagForm::Gives(Tag { link, number }, scope),
        },
    }
}

fn takes_as(link: LinkType, number: Option<u32>) -> TagForm
    ensures { result ≡ takes_as link number }
{
    match number {
        None => TagForm::WrongParameters,
        Some(number) => TagForm::Takes(Tag { link, number }),
    }
}

/// What an object that gives a tag says: the tag and its scope.
pub(crate) fn giver_form(link: LinkType, ipar: &[i64]) -> TagForm
    ensures { result ≡ giver_form link ipar.now }
{
    match ipar {
        [number, scope] => gives_as(link, tag_number(*number), scope_of(*scope)),
        _ => TagForm::WrongParameters,
    }
}

/// What an object that takes a tag says: the tag alone.
pub(crate) fn taker_form(link: LinkType, ipar: &[i64]) -> TagForm
    ensures { result ≡ taker_form link ipar.now }
{
    match ipar {
        [number] => takes_as(link, tag_number(*number)),
        _ => TagForm::WrongParameters,
    }
}
