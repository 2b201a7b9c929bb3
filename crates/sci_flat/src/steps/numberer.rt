// The walk over a diagram that numbers its ports.
ghost use Rattle.std.specs.Prelude.{◌≡◌, ◌<◌, ◌^◌, ◌++◌, All, Some, OnOk, IfOk, length};
ghost use Rattle.sci_diagram.specs.Objects.{diagram_view, object_view, listed};
ghost use Rattle.sci_flat.specs.PortNumbers.{past};
ghost use Rattle.sci_flat.specs.Numbers.{object_seat, seats, own_past, insides_past, inside_past, steps_by, object_steps_by, blocks_by, object_blocks_by};
ghost use Rattle.sci_flat.specs.Numbers.{tags_by, object_tags_by, through_numbers, unless_passed, tag_numbers};
ghost use Rattle.sci_blocks.specs.Rows.{pass_through};

use crate::steps::link::add_link;
use crate::steps::port_numbers::PortNumbers;
use crate::steps::through::add_through;
use sci_base::NoMemory;
use sci_blocks::PassThrough;
use sci_diagram::{Diagram, Obj};
use std::alloc::Global;

/// What the walk has come to.
#[derive(Drop)]
pub struct PortNumberer {
    /// The next number.
    pub next: u32,
    pub steps: Vec<(u32, u32)>,
    /// The blocks that are neither superblocks nor pass-through objects.
    pub blocks: Vec<PortNumbers>,
    /// The numbers of the tag objects' first ports.
    pub tags: Vec<u32>,
}

/// The seat of an object whose first port has this number.
fn seat_of(obj: &Obj, next: u32) -> PortNumbers
    requires { past (object_seat next (object_view obj.now)) < 2 ^ 32 }
    ensures { result ≡ object_seat next (object_view obj.now) }
{
    match obj {
        Obj::Block(block) => PortNumbers::of(next, &block.fields),
        Obj::Link(_) | Obj::Text | Obj::Deleted => PortNumbers::empty(next),
    }
}

/// Adds the number of the first port of a tag object.
fn add_tag(seat: PortNumbers, p: PassThrough, tags: &mut Vec<u32>) -> Result<(), NoMemory>
    ensures { OnOk result (tags.new.items ≡ tags.old.items ++ tag_numbers seat (Some p)) }
{
    match p {
        PassThrough::Giver(_) | PassThrough::Taker(_) => {
            tags.push(seat.first)?;
            Ok(())
        }
        PassThrough::Split
        | PassThrough::ActivationSplit
        | PassThrough::Union
        | PassThrough::PortBlock(_) => Ok(()),
    }
}

impl PortNumberer {
    // The seats of a diagram's own objects.
    fn seats(&mut self, alloc: Global, d: &Diagram) -> Result<Vec<PortNumbers>, NoMemory>
        requires { own_past self.old.next (diagram_view d.now) < 2 ^ 32 }
        ensures seats { IfOk result (λ ss. ss.items ≡ seats self.old.next (diagram_view d.now)) }
        ensures fit { IfOk result (λ ss. All (λ s. past s < 2 ^ 32) ss.items) }
        ensures long { IfOk result (λ ss. length ss.items ≡ length (listed (diagram_view d.now))) }
        ensures next { OnOk result (self.new.next ≡ own_past self.old.next (diagram_view d.now)) }
        ensures steps { self.new.steps ≡ self.old.steps }
        ensures blocks { self.new.blocks ≡ self.old.blocks }
        ensures tags { self.new.tags ≡ self.old.tags }
    {
        let mut seats = Vec::with_capacity(alloc, d.objs.len())?;
        for obj in &d.objs {
            let seat = seat_of(obj, self.next);
            self.next = seat.past();
            seats.push(seat)?;
        }
        Ok(seats)
    }

    /// The steps, the blocks and the tag objects of a diagram; `outer` is the seat of the superblock around it.
    #[cycle(walk)]
    pub(crate) fn diagram(
        &mut self,
        alloc: Global,
        d: &Diagram,
        outer: PortNumbers,
    ) -> Result<(), NoMemory>
        requires outer { past outer < 2 ^ 32 }
        requires room { insides_past (own_past self.old.next (diagram_view d.now)) (diagram_view d.now) < 2 ^ 32 }
        ensures next { OnOk result (self.new.next
            ≡ insides_past (own_past self.old.next (diagram_view d.now)) (diagram_view d.now)) }
        ensures steps { OnOk result (self.new.steps.items ≡ self.old.steps.items
            ++ steps_by (seats self.old.next (diagram_view d.now)) outer (seats self.old.next (diagram_view d.now))
            (own_past self.old.next (diagram_view d.now)) (diagram_view d.now)) }
        ensures blocks { OnOk result (self.new.blocks.items ≡ self.old.blocks.items
            ++ blocks_by (seats self.old.next (diagram_view d.now)) (own_past self.old.next (diagram_view d.now)) (diagram_view d.now)) }
        ensures tags { OnOk result (self.new.tags.items ≡ self.old.tags.items
            ++ tags_by (seats self.old.next (diagram_view d.now)) (own_past self.old.next (diagram_view d.now)) (diagram_view d.now)) }
    {
        let seats = self.seats(alloc, d)?;
        self.objects(alloc, d, &seats, outer)
    }

    // The objects of a diagram, which have these seats.
    #[cycle(walk)]
    fn objects(
        &mut self,
        alloc: Global,
        d: &Diagram,
        seats: &[PortNumbers],
        outer: PortNumbers,
    ) -> Result<(), NoMemory>
        requires outer { past outer < 2 ^ 32 }
        requires seats { All (λ s. past s < 2 ^ 32) seats.now }
        requires long { length seats.now ≡ length (listed (diagram_view d.now)) }
        requires room { insides_past self.old.next (diagram_view d.now) < 2 ^ 32 }
        ensures next { OnOk result (self.new.next ≡ insides_past self.old.next (diagram_view d.now)) }
        ensures steps { OnOk result (self.new.steps.items ≡ self.old.steps.items
            ++ steps_by seats.now outer seats.now self.old.next (diagram_view d.now)) }
        ensures blocks { OnOk result (self.new.blocks.items ≡ self.old.blocks.items
            ++ blocks_by seats.now self.old.next (diagram_view d.now)) }
        ensures tags { OnOk result (self.new.tags.items ≡ self.old.tags.items
            ++ tags_by seats.now self.old.next (diagram_view d.now)) }
    {
        for (i, obj) in d.objs.iter().enumerate() {
            self.object(alloc, obj, seats, seats[i], outer)?;
        }
        Ok(())
    }

    #[cycle(walk)]
    #[tactic(auto, unfolding(crate::specs::Numbers::object_steps_by, crate::specs::Numbers::object_blocks_by, crate::specs::Numbers::object_tags_by, crate::specs::Numbers::inside_past))]
    fn object(
        &mut self,
        alloc: Global,
        obj: &Obj,
        seats: &[PortNumbers],
        seat: PortNumbers,
        outer: PortNumbers,
    ) -> Result<(), NoMemory>
        requires outer { past outer < 2 ^ 32 }
        requires seats { All (λ s. past s < 2 ^ 32) seats.now }
        requires seat { past seat < 2 ^ 32 }
        requires room { inside_past self.old.next (object_view obj.now) < 2 ^ 32 }
        ensures next { OnOk result (self.new.next ≡ inside_past self.old.next (object_view obj.now)) }
        ensures steps { OnOk result (self.new.steps.items ≡ self.old.steps.items
            ++ object_steps_by seats.now outer seat self.old.next (object_view obj.now)) }
        ensures blocks { OnOk result (self.new.blocks.items ≡ self.old.blocks.items
            ++ object_blocks_by seat self.old.next (object_view obj.now)) }
        ensures tags { OnOk result (self.new.tags.items ≡ self.old.tags.items
            ++ object_tags_by seat self.old.next (object_view obj.now)) }
    {
        match obj {
            Obj::Link(link) => {
                add_link(seats, link, &mut self.steps)?;
                Ok(())
            }
            Obj::Block(block) => match &block.inner {
                Some(inner) => self.diagram(alloc, inner, seat),
                None => self.block(
                    block.gui.as_str(),
                    block.fields.ipar.as_slice(),
                    seat,
                    outer,
                ),
            },
            Obj::Text => Ok(()),
            Obj::Deleted => Ok(()),
        }
    }

    // A block that is no superblock.
    fn block(
        &mut self,
        gui: &str,
        ipar: &[i64],
        seat: PortNumbers,
        outer: PortNumbers,
    ) -> Result<(), NoMemory>
        requires outer { past outer < 2 ^ 32 }
        requires seat { past seat < 2 ^ 32 }
        ensures next { self.new.next ≡ self.old.next }
        ensures steps { OnOk result (self.new.steps.items ≡ self.old.steps.items
            ++ through_numbers outer seat ipar.now (pass_through gui.now)) }
        ensures blocks { OnOk result (self.new.blocks.items ≡ self.old.blocks.items ++ unless_passed seat (pass_through gui.now)) }
        ensures tags { OnOk result (self.new.tags.items ≡ self.old.tags.items ++ tag_numbers seat (pass_through gui.now)) }
    {
        match PassThrough::of(gui) {
            Some(p) => {
                add_tag(seat, p, &mut self.tags)?;
                add_through(outer, seat, ipar, p, &mut self.steps)?;
            }
            None => self.blocks.push(seat)?,
        }
        Ok(())
    }
}
