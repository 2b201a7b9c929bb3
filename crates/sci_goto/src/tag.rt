// Tags, and what the objects say that give and take them.
use crate::parameters::{giver_form, taker_form};
use sci_base::BlockFields;
use sci_blocks::{LinkType, PassThrough, has_its_ports};

/// A tag: those of values and those of activations are apart.
#[derive(Clone, Copy, Drop, PartialEq, Eq, PartialOrd, Ord)]
pub struct Tag {
    pub link: LinkType,
    /// From 1 to 2^31-1.
    pub number: u32,
}

/// Where a tag is given.
#[derive(Clone, Copy, Drop)]
pub enum Scope {
    /// To the objects of the same diagram.
    Local,
    /// To objects at every level.
    Global,
}

/// What a tag object says by its ports and its parameters.
#[derive(Clone, Copy, Drop)]
pub enum TagForm {
    /// Its counts of ports aren't those of its name.
    WrongPorts,
    /// Its parameters aren't a tag and, where it gives one, a scope.
    WrongParameters,
    Gives(Tag, Scope),
    Takes(Tag),
}

impl TagForm {
    ghost use Rattle.std.specs.Prelude.{◌≡◌};
    ghost use Rattle.sci_base.specs.Plain.{fields_of};
    ghost use Rattle.sci_blocks.specs.Rows.{pass_through};
    ghost use Rattle.sci_goto.specs.Forms.{by_ports, form_of};

    // Its ports come first.
    fn by_ports(p: PassThrough, f: &BlockFields, form: TagForm) -> TagForm
        ensures { result ≡ by_ports p (fields_of f.now) form }
    {
        if has_its_ports(p, f) {
            form
        } else {
            TagForm::WrongPorts
        }
    }

    /// What a block with this name and these fields says, where it is a tag object.
    pub fn of(gui: &str, f: &BlockFields) -> Option<TagForm>
        ensures { result ≡ form_of (pass_through gui.now) (fields_of f.now) }
    {
        let p = PassThrough::of(gui)?;
        let ipar = f.ipar.as_slice();
        match p {
            PassThrough::Giver(link) => Some(TagForm::by_ports(p, f, giver_form(link, ipar))),
            PassThrough::Taker(link) => Some(TagForm::by_ports(p, f, taker_form(link, ipar))),
            PassThrough::Split
            | PassThrough::ActivationSplit
            | PassThrough::Union
            | PassThrough::PortBlock(_) => None,
        }
    }
}
