ghost use Rattle.std.specs.Prelude.{◌≡◌, ℕ};

use adg_base::node::{DdlNode, Node};
use adg_base::number::Scn;

/// What has an SCN and is copied without taking memory.
pub trait HasScn: Copy + Drop {
    /// The SCN as a number.
    ghost scn_of: { Self → ℕ };

    /// The SCN.
    fn scn(&self) -> Scn
        ensures { result ≡ scn_of self.now };
}

impl HasScn for Node {
    ghost scn_of = { λ node. node.scn };

    fn scn(&self) -> Scn {
        self.scn
    }
}

impl HasScn for DdlNode {
    ghost scn_of = { λ node. node.scn };

    fn scn(&self) -> Scn {
        self.scn
    }
}
