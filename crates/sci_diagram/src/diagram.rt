// A diagram, as its file describes it.
use sci_base::BlockFields;

/// A diagram: its objects in the order of the file, counted from 1.
#[cycle(diagram)]
#[derive(Drop)]
pub struct Diagram {
    pub objs: Vec<Obj>,
}

/// An object of a diagram. Texts and deleted objects keep their place in the count.
#[cycle(diagram)]
#[derive(Drop)]
pub enum Obj {
    Block(BlockObj),
    Link(LinkObj),
    Text,
    Deleted,
}

/// A block. A superblock has a diagram inside.
#[cycle(diagram)]
#[derive(Drop)]
pub struct BlockObj {
    /// The name of the block's kind.
    pub gui: String,
    /// What its `model` says.
    pub fields: BlockFields,
    /// The diagram of a superblock.
    pub inner: Option<Box<Diagram>>,
}

/// A link from one port to another.
#[derive(Clone, Copy, Drop)]
pub struct LinkObj {
    pub from: End,
    pub to: End,
    /// 1 for a regular link, -1 for an activation link.
    pub kind: i64,
}

/// An end of a link: a port of an object of the same diagram.
#[derive(Clone, Copy, Drop)]
pub struct End {
    /// The object's position, from 1.
    pub block: i64,
    /// The port's number on its side, from 1.
    pub port: i64,
    /// 0 for an output, 1 for an input.
    pub side: i64,
}
