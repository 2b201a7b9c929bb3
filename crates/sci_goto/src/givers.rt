// The objects that give a tag, by what they give and where.
ghost use Rattle.sci_base.specs.Stops.{IsViolation};
ghost use Rattle.sci_goto.specs.Phase.{ill_formed, by_tag};
ghost use Rattle.sci_goto.specs.Placed.{place_of};

use crate::placed::PlacedTag;
use crate::tag::{Scope, Tag, TagForm};
use sci_base::{NoMemory, Rule, Stop};
use sci_diagram::child;
use smallvec::SmallVec;
use std::alloc::Global;
use std::collections::BTreeMap;

/// A tag where it is given: within the diagram at a place, or everywhere.
#[derive(Drop, PartialEq, Eq, PartialOrd, Ord)]
pub(crate) struct ScopedTag {
    pub(crate) tag: Tag,
    pub(crate) within: Option<SmallVec<u32, 16, Global>>,
}

impl ScopedTag {
    ghost use Rattle.std.specs.Prelude.{◌≡◌, IfOk, Some, None};
    ghost use Rattle.sci_goto.specs.Phase.{within};
    ghost use Rattle.sci_goto.specs.Givers.{IsScoped};

    fn local(alloc: Global, tag: Tag, around: &[u32]) -> Result<ScopedTag, NoMemory>
        ensures { IfOk result (λ q. IsScoped q tag (Some around.now)) }
    {
        let path = SmallVec::from_slice(alloc, around)?;
        Ok(ScopedTag {
            tag,
            within: Some(path),
        })
    }

    fn global(tag: Tag) -> ScopedTag
        ensures { IsScoped result tag None }
    {
        ScopedTag { tag, within: None }
    }

    fn of(alloc: Global, tag: Tag, scope: Scope, around: &[u32]) -> Result<ScopedTag, NoMemory>
        ensures { IfOk result (λ q. IsScoped q tag (within scope around.now)) }
    {
        match scope {
            Scope::Local => ScopedTag::local(alloc, tag, around),
            Scope::Global => Ok(ScopedTag::global(tag)),
        }
    }
}

/// The objects that give a tag, each the only one of its tag and scope, by their positions among the tag objects.
#[derive(Drop)]
pub(crate) struct Givers {
    pub(crate) positions: BTreeMap<ScopedTag, usize>,
}

// The refusal of an object by its form.
fn ill_formed(alloc: Global, t: &PlacedTag, code: i64) -> Stop
    ensures { IsViolation (ill_formed (place_of t.now) code) result }
{
    match child(alloc, t.around.path.as_slice(), t.position) {
        Ok(place) => Stop::by(alloc, Rule::TagShape, place.as_slice(), &[code]),
        Err(NoMemory) => Stop::Memory,
    }
}

/// The refusal of an object by a rule on its tag.
pub(crate) fn by_tag(alloc: Global, rule: Rule, t: &PlacedTag, tag: Tag) -> Stop
    ensures { IsViolation (by_tag rule (place_of t.now) tag) result }
{
    match child(alloc, t.around.path.as_slice(), t.position) {
        Ok(place) => Stop::by(alloc, rule, place.as_slice(), &[tag.number as i64]),
        Err(NoMemory) => Stop::Memory,
    }
}

impl Givers {
    ghost use Rattle.std.specs.Prelude.{◌≡◌, List, [], ◌∷◌, ◌++◌, length, map, IfOk, IfErr, OnOk};
    ghost use Rattle.sci_base.specs.Stops.{Stops};
    ghost use Rattle.sci_goto.specs.Phase.{Standing, Giving, Tags, no_tags, giving, taking, server, given_once, joined, gathered};
    ghost use Rattle.sci_goto.specs.Placed.{standing_of};
    ghost use Rattle.sci_goto.specs.declared.tag.TagForm.TheVariants.{Gives};
    ghost use Rattle.sci_goto.specs.Givers.{HoldsGivers, IsJoined, IsFirst};

    fn new(alloc: Global) -> Givers
        ensures { HoldsGivers result [] [] }
    {
        Givers {
            positions: BTreeMap::new(alloc),
        }
    }

    /// Takes the `n`-th of the tag objects, which gives a tag.
    fn give(
        &mut self,
        alloc: Global,
        n: usize,
        t: &PlacedTag,
        tag: Tag,
        scope: Scope,
    ) -> Result<(), Stop>
        requires { t.now.form ≡ Gives tag scope }
        ensures ok { (ss : List Standing) (tags : Tags) → length ss ≡ n → HoldsGivers self.old ss tags.givers
            → OnOk result (IsJoined self.new (ss ++ standing_of t.now ∷ []) (given_once tags (giving (standing_of t.now) tag scope))) }
        ensures stop { (ss : List Standing) (tags : Tags) → HoldsGivers self.old ss tags.givers
            → IfErr result (λ e. Stops (given_once tags (giving (standing_of t.now) tag scope)) e) }
    {
        let key = ScopedTag::of(alloc, tag, scope, t.around.path.as_slice())?;
        match self.positions.insert(key, n)? {
            None => Ok(()),
            Some(_) => Err(by_tag(alloc, Rule::TagTwice, t, tag)),
        }
    }

    /// Takes the `n`-th of the tag objects.
    fn add(&mut self, alloc: Global, n: usize, t: &PlacedTag) -> Result<(), Stop>
        ensures ok { (ss : List Standing) (tags : Tags) → length ss ≡ n → HoldsGivers self.old ss tags.givers
            → OnOk result (IsJoined self.new (ss ++ standing_of t.now ∷ []) (joined tags (standing_of t.now) t.now.form)) }
        ensures stop { (ss : List Standing) (tags : Tags) → HoldsGivers self.old ss tags.givers
            → IfErr result (λ e. Stops (joined tags (standing_of t.now) t.now.form) e) }
    {
        match t.form {
            TagForm::WrongPorts => Err(ill_formed(alloc, t, 1)),
            TagForm::WrongParameters => Err(ill_formed(alloc, t, 2)),
            TagForm::Gives(tag, scope) => self.give(alloc, n, t, tag, scope),
            TagForm::Takes(_) => Ok(()),
        }
    }

    /// The givers among some tag objects; or the first of them that breaks its form, or gives a tag that an earlier one gives.
    pub(crate) fn of(alloc: Global, tags: &[PlacedTag]) -> Result<Givers, Stop>
        ensures ok { IfOk result (λ m. IsJoined m (map standing_of tags.now) (gathered no_tags (map standing_of tags.now))) }
        ensures stop { IfErr result (λ e. Stops (gathered no_tags (map standing_of tags.now)) e) }
    {
        let mut givers = Givers::new(alloc);
        for (n, t) in tags.iter().enumerate() {
            givers.add(alloc, n, t)?;
        }
        Ok(givers)
    }

    /// The position of the object that serves one that takes a tag: of the one that gives the tag within the same diagram, or else of
    /// the one that gives it everywhere.
    pub(crate) fn server(
        &self,
        alloc: Global,
        t: &PlacedTag,
        tag: Tag,
    ) -> Result<Option<usize>, NoMemory>
        ensures { (ss : List Standing) (gs : List Giving) → HoldsGivers self.now ss gs → IfOk result (IsFirst ss (server gs (taking (standing_of t.now) tag))) }
    {
        let local = ScopedTag::local(alloc, tag, t.around.path.as_slice())?;
        let within = self.positions.get(&local).copied();
        let everywhere = self.positions.get(&ScopedTag::global(tag)).copied();
        Ok(within.or(everywhere))
    }
}
