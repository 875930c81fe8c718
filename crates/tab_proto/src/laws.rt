//! Laws of the terms of requests. Each is the contract of a function that does nothing.

ghost use Rattle.std.specs.Prelude.{◌≡◌, ℕ};
ghost use Rattle.tab_proto.specs.Requests.{Request, request_term, IsRequest};

/// Two requests with one term are one: the same session asks the same.
pub fn requests_are_apart()
    ensures { (m n : ℕ) (a b : Request) → IsRequest a → IsRequest b
        → request_term m a ≡ request_term n b → (m ≡ n) × (a ≡ b) }
{}
