ghost use Rattle.std.specs.Prelude.{◌≡◌, Ok, IfOk, IfErr, Some};
ghost use Rattle.serde_json.specs.Find.{get};
ghost use Rattle.sci_json.specs.View.{view};
ghost use Rattle.sci_diagram.specs.Telling.{Tells};
ghost use Rattle.sci_diagram.specs.Tree.{sort_of, as_sort, read_sort};

use crate::fields::{missing, wrong};
use crate::keys;
use crate::table::Fields;
use sci_base::Stop;
use sci_json::document::Value;
use std::alloc::Global;

/// What an object is.
#[derive(Clone, Copy, Drop)]
pub enum Sort {
    Block,
    Link,
    Text,
    Deleted,
}

/// What a block is, as far as it decides which fields of its model are looked at.
#[derive(Clone, Copy, PartialEq, Eq, Drop)]
pub enum ObjectRole {
    /// A block of some kind.
    Kind,
    /// A port of the superblock around it: IN_f, OUT_f, CLKINV_f, CLKOUTV_f.
    Port,
    /// A split or a union: SPLIT_f, CLKSPLIT_f, CLKSOM_f, CLKSOMV_f.
    Joint,
    /// An end of a link that isn't drawn: GOTO, FROM, CLKGOTO, CLKFROM.
    Tag,
    /// A superblock.
    Super,
}

impl ObjectRole {
    ghost use Rattle.sci_diagram.specs.Tree.{role_of, keeps_state, keeps_ipar};

    /// By its name, for a block that is no superblock.
    pub fn of(gui: &str) -> ObjectRole
        ensures { result ≡ role_of gui.now }
    {
        match gui {
            "IN_f" | "OUT_f" | "CLKINV_f" | "CLKOUTV_f" => ObjectRole::Port,
            "SPLIT_f" | "CLKSPLIT_f" | "CLKSOM_f" | "CLKSOMV_f" => ObjectRole::Joint,
            "GOTO" | "FROM" | "CLKGOTO" | "CLKFROM" => ObjectRole::Tag,
            _ => ObjectRole::Kind,
        }
    }

    /// Whether `dstate` and `firing` are looked at.
    pub fn keeps_state(self) -> bool
        ensures { result ≡ keeps_state self }
    {
        self == ObjectRole::Kind
    }

    /// Whether `ipar` is looked at.
    pub fn keeps_ipar(self) -> bool
        ensures { result ≡ keeps_ipar self }
    {
        matches!(self, ObjectRole::Kind | ObjectRole::Port | ObjectRole::Tag)
    }
}

fn sort_of(name: &str) -> Option<Sort>
    ensures { result ≡ sort_of name.now }
{
    match name {
        "Block" => Some(Sort::Block),
        "Link" => Some(Sort::Link),
        "Text" => Some(Sort::Text),
        "Deleted" => Some(Sort::Deleted),
        _ => None,
    }
}

fn as_sort(v: &Value<'_, '_>) -> Option<Sort>
    ensures { result ≡ as_sort (view v.now) }
{
    sort_of(v.as_str()?)
}

#[tactic(auto, using(crate::proofs::Told::tells_violation), unfolding(crate::specs::Tree::read_sort))]
pub(crate) fn read_sort(alloc: Global, v: &Fields<'_, '_, '_>, at: &[u32]) -> Result<Sort, Stop>
    ensures ok { IfOk result (λ s. read_sort at.now (view v.now) ≡ Ok s) }
    ensures stop { IfErr result (λ e. Tells (read_sort at.now (view v.now)) e) }
{
    if !v.is_object() {
        return Err(wrong(alloc, at, keys::OBJ));
    }
    match v.get(keys::OBJ) {
        None => Err(missing(alloc, at, keys::OBJ)),
        Some(found) => match as_sort(found) {
            None => Err(wrong(alloc, at, keys::OBJ)),
            Some(sort) => Ok(sort),
        },
    }
}
