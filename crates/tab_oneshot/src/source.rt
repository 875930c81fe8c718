//! The interface through which the driver gets a one-shot's parts again.

ghost use Rattle.std.specs.Prelude.{◌≡◌, List, IfOk};
ghost use Rattle.tab_model.specs.declared.data.Part.{Part as PartOf};

use std::alloc::AllocError;
use tab_model::Part;

/// The origin of a one-shot's parts. Each attempt consumes the parts, and they are made again for the attempt after a
/// restart: most one-shots are not restarted, and so nothing of them is copied.
pub trait Source {
    /// The second are the parts that the first gives.
    ghost gives: { Self → List PartOf → Type 0 };

    /// The parts again.
    fn again(&self) -> Result<Vec<Part>, AllocError>
        ensures { (parts : List PartOf) → gives self.now parts
            → IfOk result (λ again. again.items ≡ parts) };
}
