// What the definitions say of diagrams that are read, and of those that break no rule.
ghost use Rattle.sci_blocks.specs.Laws.{ReadLaw, BlocksLaw, LinksLaw, NamesLaw, NumbersLaw};

/// A diagram that is read has fewer than 2^32 objects in each list, as the calls of this crate require.
pub fn read_law()
    ensures { ReadLaw }
{}

/// Where no object breaks a rule, each number of a superblock's ports has one port block directly inside and no other number has
/// one, and each block keeps the form of its kind, or its row as a pass-through object, at every level.
pub fn blocks_law()
    ensures { BlocksLaw }
{}

/// Where no link breaks a rule, each link's ends are ports of the classes that its type joins, and no two regular links of one
/// diagram end at one input, at every level.
pub fn links_law()
    ensures { LinksLaw }
{}

/// The pass-through objects are those that the reader takes for such.
pub fn names_law()
    ensures { NamesLaw }
{}

/// What the rule on a superblock's ports shows is the first number from 1 up that breaks it.
pub fn numbers_law()
    ensures { NumbersLaw }
{}
