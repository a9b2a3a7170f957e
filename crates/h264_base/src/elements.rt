//! What takes the elements of a stream as they are read.
#![tactic(auto)]

ghost use Rattle.std.specs.Prelude.{ℕ, ◌≡◌, ◌+◌, ◌-◌, ◌<◌, ◌^◌, List, [], ◌∷◌, OnOk, OnErr};
ghost use Rattle.h264_base.specs.Call.{Call, OfElement, Tells, HasRoom, IsQuiet};

use crate::element_name::ElementName;

/// A sink did not take a call.
#[derive(Clone, Copy, Debug, PartialEq, Eq)]
pub struct Failed;

/// Takes the syntax elements, each as soon as its code word was read.
pub trait Elements {
    /// Whether these are the calls that it took, in order.
    ghost took: { Self → List Call → Type 0 };

    /// How many calls failed.
    ghost failures: { Self → ℕ };

    /// An element: its name, the stream bit where it begins, and its value.
    fn element(&mut self, name: ElementName, bit: u64, value: i64) -> Result<(), Failed>
        requires { HasRoom failures self.old }
        ensures ok { OnOk result (Tells took self.old self.new (OfElement name bit value ∷ [])) }
        ensures kept { OnOk result (IsQuiet failures self.old self.new) }
        ensures refused { OnErr result (Tells took self.old self.new []) }
        ensures failed { OnErr result (failures self.new ≡ failures self.old + 1) };
}
