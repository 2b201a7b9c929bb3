// The rules that a file can break, and refusals by them.
ghost use Rattle.std.specs.Prelude.{◌≡◌, IfOk};

use crate::NoMemory;
use smallvec::SmallVec;
use std::alloc::Global;

/// A rule, by the number and the name that a refusal prints.
#[derive(Clone, Copy, Drop)]
pub enum Rule {
    /// The bytes are no JSON text (RFC 8259).
    NotJson = 1,
    /// A required field is absent.
    MissingField,
    /// A field hasn't its form.
    WrongField,
    /// A superblock would be at level 17.
    TooDeep,
    /// More than 2,048 blocks are neither superblocks nor pass-through objects.
    TooManyBlocks,
    /// More than 16,384 links over all levels.
    TooManyLinks,
    /// No kind and no pass-through object has this name.
    UnknownBlock,
    /// A parameter breaks the kind's form.
    BadParameter,
    /// A count of ports, or the length of a list of sizes or types, breaks the kind's form.
    PortShape,
    /// A port declares a type that is no integer type.
    NotInteger,
    /// A block is declared always active.
    AlwaysActive,
    /// A link's type is unknown, or one of its ends is no port of its class.
    LinkEnd,
    /// An earlier link of the same diagram ends at the same regular input.
    InputTwice,
    /// The port blocks inside a superblock don't match its ports.
    SuperPorts,
    /// No output feeds a regular input.
    NoSource,
    /// An earlier sensor has the same column.
    ColumnTwice,
    /// Ports that are tied to one type declare two.
    TypeConflict,
    /// Ports that are tied to one size declare two.
    SizeConflict,
    /// Nothing decides a port's type.
    TypeOpen,
    /// Nothing decides a port's size.
    SizeOpen,
    /// The kind doesn't take the type, or a parameter is outside it.
    TypeNotHere,
    /// A size, or a parameter's length, breaks the kind's shape.
    ShapeRule,
    /// An output has more than 256 elements, or all together more than 65,536.
    SignalTooLarge,
    /// Some activation source's dependencies close a cycle.
    AlgebraicLoop,
    /// The schedules have more than 262,144 entries and guards.
    ScheduleTooLong,
    /// The bytes are no program of the C subset.
    NotC,
    /// The input file is no list of lists of whole numbers, or has too few lists.
    InputShape,
    /// A sensor's value is outside its type.
    InputRange,
    /// A file passes its limit.
    FileTooLong,
    /// A form that this version doesn't build yet.
    Unbuilt,
    /// A tag object's count of ports, its tag or its scope breaks its form.
    TagShape,
    /// An earlier object gives the same tag in the same scope.
    TagTwice,
    /// No object gives the tag that is taken.
    TagMissing,
    /// More than 1,024 tag objects over all levels.
    TooManyTags,
    /// The run has no reaction after the one whose state is asked for.
    RunEnded,
    /// The bytes are no saved state of a run of this diagram.
    NotSave,
    /// The bytes are no value change dump.
    NotVcd,
}

impl Rule {
    ghost use Rattle.sci_base.specs.Rules.{number_of, name_of};

    /// From 1 to 37.
    pub fn number(self) -> u8
        ensures { result ≡ number_of self }
    {
        self as u8
    }

    /// The name as it is printed.
    pub fn name(self) -> &'static str
        ensures { result.now ≡ name_of self }
    {
        match self {
            Rule::NotJson => "NotJson",
            Rule::MissingField => "MissingField",
            Rule::WrongField => "WrongField",
            Rule::TooDeep => "TooDeep",
            Rule::TooManyBlocks => "TooManyBlocks",
            Rule::TooManyLinks => "TooManyLinks",
            Rule::UnknownBlock => "UnknownBlock",
            Rule::BadParameter => "BadParameter",
            Rule::PortShape => "PortShape",
            Rule::NotInteger => "NotInteger",
            Rule::AlwaysActive => "AlwaysActive",
            Rule::LinkEnd => "LinkEnd",
            Rule::InputTwice => "InputTwice",
            Rule::SuperPorts => "SuperPorts",
            Rule::NoSource => "NoSource",
            Rule::ColumnTwice => "ColumnTwice",
            Rule::TypeConflict => "TypeConflict",
            Rule::SizeConflict => "SizeConflict",
            Rule::TypeOpen => "TypeOpen",
            Rule::SizeOpen => "SizeOpen",
            Rule::TypeNotHere => "TypeNotHere",
            Rule::ShapeRule => "ShapeRule",
            Rule::SignalTooLarge => "SignalTooLarge",
            Rule::AlgebraicLoop => "AlgebraicLoop",
            Rule::ScheduleTooLong => "ScheduleTooLong",
            Rule::NotC => "NotC",
            Rule::InputShape => "InputShape",
            Rule::InputRange => "InputRange",
            Rule::FileTooLong => "FileTooLong",
            Rule::Unbuilt => "Unbuilt",
            Rule::TagShape => "TagShape",
            Rule::TagTwice => "TagTwice",
            Rule::TagMissing => "TagMissing",
            Rule::TooManyTags => "TooManyTags",
            Rule::RunEnded => "RunEnded",
            Rule::NotSave => "NotSave",
            Rule::NotVcd => "NotVcd",
        }
    }
}

/// The place of an object: its positions in the lists of objects from the outermost diagram inward, counted from 1. The
/// empty place is the diagram as a whole.
#[derive(Drop)]
pub struct Place {
    pub path: SmallVec<u32, 8, Global>,
}

/// The first rule that is broken, where, and the numbers that tell how.
#[derive(Drop)]
pub struct Refusal {
    pub rule: Rule,
    pub place: Place,
    pub detail: Vec<i64>,
}

impl Place {
    /// The place whose positions these are.
    pub fn of(alloc: Global, path: &[u32]) -> Result<Place, NoMemory>
        ensures { IfOk result (λ p. p.path.items ≡ path.now) }
    {
        Ok(Place {
            path: SmallVec::from_slice(alloc, path)?,
        })
    }

    pub fn copy(&self, alloc: Global) -> Result<Place, NoMemory>
        ensures { IfOk result (λ p. p.path.items ≡ self.now.path.items) }
    {
        Place::of(alloc, self.path.as_slice())
    }
}

impl Refusal {
    ghost use Rattle.sci_base.specs.Plain.{violation_of, of_the_whole};

    /// The refusal by a rule at a place, with these numbers.
    pub fn of(alloc: Global, rule: Rule, place: &[u32], detail: &[i64]) -> Result<Refusal, NoMemory>
        ensures { IfOk result (λ r. violation_of r ≡ record { rule = rule; place = place.now; detail = detail.now }) }
    {
        Ok(Refusal {
            rule,
            place: Place::of(alloc, place)?,
            detail: detail.to_vec(alloc)?,
        })
    }

    /// A refusal of the whole file, with no detail. It takes no memory.
    pub fn of_the_whole(alloc: Global, rule: Rule) -> Refusal
        ensures { violation_of result ≡ of_the_whole rule }
    {
        Refusal {
            rule,
            place: Place {
                path: SmallVec::new(alloc),
            },
            detail: Vec::new(alloc),
        }
    }
}
