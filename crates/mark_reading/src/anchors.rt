// The two anchors of an attachment.
#![tactic(auto)]

ghost use Rattle.std.specs.Prelude.{◌<◌};

// The anchor objects of a mark and of a base: of a sound store, whose objects have numbers of sixteen bits, so that one more fits too.
#[derive(Clone, Copy)]
pub struct Anchors {
    pub mark: u32,
    pub base: u32,
    ghost mark_small: { mark < 65536 },
    ghost base_small: { base < 65536 },
}
