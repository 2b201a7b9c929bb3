// The fields of an object, all found in one pass over its members.
ghost use Rattle.std.specs.Prelude.{◌≡◌, ◌≤◌, IfSome, option_map, is_some};
ghost use Rattle.std.specs.List.{position_from};
ghost use Rattle.std.specs.Str.{bytes_eq};
ghost use Rattle.serde_json.specs.Data.{no_members};
ghost use Rattle.serde_json.specs.Find.{get, as_object};
ghost use Rattle.sci_json.specs.View.{view, members_view};
ghost use Rattle.sci_diagram.specs.Names.{names, name_of, AreFound, FillsUp, AreFieldsOf, of_length, code_among};

use crate::keys;
use sci_json::document::{Members, Value};
use std::marker::Model;

/// How many codes there are, from 1 on.
const CODES: usize = 21;

/// Whether a name is spelled by these bytes. It is inlined, so that a text of few bytes is compared with no call.
#[inline(always)]
fn is_spelled(name: &[u8], text: &[u8]) -> bool
    ensures { result ≡ bytes_eq name.now text.now }
{
    name == text
}

/// The code of a name of 2 bytes.
#[inline(always)]
fn code_of_two(name: &[u8]) -> Option<u32>
    ensures code { result ≡ code_among name.now (of_length 2 1 names) }
    ensures within { IfSome result (λ code. (1 ≤ code) × (code ≤ 21)) }
{
    if is_spelled(name, b"in") {
        Some(keys::IN)
    } else if is_spelled(name, b"to") {
        Some(keys::TO)
    } else if is_spelled(name, b"ct") {
        Some(keys::CT)
    } else {
        None
    }
}

/// The code of a name of 3 bytes.
#[inline(always)]
fn code_of_three(name: &[u8]) -> Option<u32>
    ensures code { result ≡ code_among name.now (of_length 3 1 names) }
    ensures within { IfSome result (λ code. (1 ≤ code) × (code ≤ 21)) }
{
    if is_spelled(name, b"obj") {
        Some(keys::OBJ)
    } else if is_spelled(name, b"gui") {
        Some(keys::GUI)
    } else if is_spelled(name, b"sim") {
        Some(keys::SIM)
    } else if is_spelled(name, b"in2") {
        Some(keys::IN2)
    } else if is_spelled(name, b"out") {
        Some(keys::OUT)
    } else {
        None
    }
}

/// The code of a name of 4 bytes.
#[inline(always)]
fn code_of_four(name: &[u8]) -> Option<u32>
    ensures code { result ≡ code_among name.now (of_length 4 1 names) }
    ensures within { IfSome result (λ code. (1 ≤ code) × (code ≤ 21)) }
{
    if is_spelled(name, b"objs") {
        Some(keys::OBJS)
    } else if is_spelled(name, b"out2") {
        Some(keys::OUT2)
    } else if is_spelled(name, b"rpar") {
        Some(keys::RPAR)
    } else if is_spelled(name, b"ipar") {
        Some(keys::IPAR)
    } else if is_spelled(name, b"from") {
        Some(keys::FROM)
    } else {
        None
    }
}

/// The code of a name of 5 bytes.
#[inline(always)]
fn code_of_five(name: &[u8]) -> Option<u32>
    ensures code { result ≡ code_among name.now (of_length 5 1 names) }
    ensures within { IfSome result (λ code. (1 ≤ code) × (code ≤ 21)) }
{
    if is_spelled(name, b"model") {
        Some(keys::MODEL)
    } else if is_spelled(name, b"intyp") {
        Some(keys::INTYP)
    } else if is_spelled(name, b"evtin") {
        Some(keys::EVTIN)
    } else {
        None
    }
}

/// The code of a name of 6 bytes.
#[inline(always)]
fn code_of_six(name: &[u8]) -> Option<u32>
    ensures code { result ≡ code_among name.now (of_length 6 1 names) }
    ensures within { IfSome result (λ code. (1 ≤ code) × (code ≤ 21)) }
{
    if is_spelled(name, b"outtyp") {
        Some(keys::OUTTYP)
    } else if is_spelled(name, b"evtout") {
        Some(keys::EVTOUT)
    } else if is_spelled(name, b"dstate") {
        Some(keys::DSTATE)
    } else if is_spelled(name, b"firing") {
        Some(keys::FIRING)
    } else if is_spelled(name, b"dep_ut") {
        Some(keys::DEP_UT)
    } else {
        None
    }
}

/// The code of the field of this name. None for a name that isn't looked at.
#[inline(always)]
fn code_of(name: &str) -> Option<u32>
    ensures code { result ≡ position_from (bytes_eq name.now) 1 names }
    ensures within { IfSome result (λ code. (1 ≤ code) × (code ≤ 21)) }
{
    let bytes = name.as_bytes();
    let size = bytes.len();
    match size {
        2 => code_of_two(bytes),
        3 => code_of_three(bytes),
        4 => code_of_four(bytes),
        5 => code_of_five(bytes),
        6 => code_of_six(bytes),
        _ => None,
    }
}

/// A table of values by the codes of their fields, each at the place of its code less 1.
pub(crate) type Table<'t, 'a> = [Option<Value<'t, 'a>>; CODES];

/// A table with no value.
#[inline(always)]
pub(crate) fn nothing<'t, 'a>() -> Table<'t, 'a>
    ensures { AreFound result no_members }
{
    [
        None, None, None, None, None, None, None, None, None, None, None, None, None, None, None,
        None, None, None, None, None, None,
    ]
}

/// Puts each member whose name is looked at to the place of its code. Of those with one name the last stays.
fn fill<'t, 'a>(found: &mut Table<'t, 'a>, mut members: Members<'t, 'a>)
    ensures { FillsUp found.old (members_view members.entry) found.new }
{
    while let Some((name, value)) = members.next() {
        if let Some(code) = code_of(name) {
            found[code as usize - 1] = Some(value);
        }
    }
}

/// Puts the fields of a value into a table with no value yet. A value that is no object has none.
#[inline(always)]
pub(crate) fn look_up<'t, 'a>(value: &Value<'t, 'a>, found: &mut Table<'t, 'a>)
    requires { AreFound found.old no_members }
    ensures { AreFieldsOf found.new (view value.now) }
{
    let Some(members) = value.members() else {
        return;
    };
    fill(found, members);
}

/// A value with its fields of the names that are looked at.
#[derive(Drop)]
pub(crate) struct Fields<'v, 't, 'a> {
    value: &'v Value<'t, 'a>,
    found: &'v Table<'t, 'a>,
}

impl<'v, 't, 'a> Model for Fields<'v, 't, 'a> {
    ghost use Rattle.std.specs.Prelude.{List};
    ghost use Rattle.json.specs.Token.{Token, tokens_code};
    ghost use Rattle.sci_json.specs.View.{view as data_view};
    ghost use Rattle.sci_diagram.specs.Names.{AreFieldsOf};

    ghost Value = { List Token };

    ghost coded = { tokens_code };

    ghost view = { λ f. f.value.now };

    ghost invariant = { λ f. AreFieldsOf f.found.now (data_view f.value.now) };
}

impl<'v, 't, 'a> Fields<'v, 't, 'a> {
    /// A value with the table of its fields.
    #[inline(always)]
    pub(crate) fn of(value: &'v Value<'t, 'a>, found: &'v Table<'t, 'a>) -> Fields<'v, 't, 'a>
        requires { AreFieldsOf found.now (view value.now) }
        ensures { result ≡ value.now }
    {
        Fields { value, found }
    }

    /// Whether the value is an object.
    #[inline(always)]
    pub(crate) fn is_object(&self) -> bool
        ensures { result ≡ is_some (as_object (view self.now)) }
    {
        self.value.is_object()
    }

    /// The field of that code.
    #[inline(always)]
    pub(crate) fn get(&self, code: u32) -> Option<&'v Value<'t, 'a>>
        requires first { 1 ≤ code }
        requires last { code ≤ 21 }
        ensures { option_map (λ v. view v.now) result ≡ get (name_of code) (view self.now) }
    {
        let table = self.found;
        let found = &table[..];
        found[code as usize - 1].as_ref()
    }
}
