// Pass-through objects and tag objects.
ghost use Rattle.std.specs.Prelude.{◌≡◌};
ghost use Rattle.sci_diagram.specs.Tree.{is_pass_through, is_tag};

use crate::sorts::ObjectRole;

/// Whether a name is that of a pass-through object: a split, a union, a port of the superblock around it, or a tag object.
pub fn is_pass_through(gui: &str) -> bool
    ensures { result ≡ is_pass_through gui.now }
{
    matches!(
        ObjectRole::of(gui),
        ObjectRole::Port | ObjectRole::Joint | ObjectRole::Tag
    )
}

/// Whether a name is that of a tag object, an end of a link that isn't drawn: GOTO, FROM, CLKGOTO or CLKFROM.
pub fn is_tag(gui: &str) -> bool
    ensures { result ≡ is_tag gui.now }
{
    matches!(gui, "GOTO" | "FROM" | "CLKGOTO" | "CLKFROM")
}
