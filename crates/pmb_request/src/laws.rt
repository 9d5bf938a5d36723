//! Laws over the definitions of request lines. Each function ensures one, and does nothing.

ghost use Rattle.std.specs.Prelude.{◌≡◌, ◌⊎◌, ℕ, Option, List};
ghost use Rattle.pmb_request.specs.declared.request_fault.RequestFault.{RequestFault};
ghost use Rattle.pmb_request.specs.Request.{RequestData};
ghost use Rattle.pmb_request.specs.RequestFault.{IsRequestFault, SpellsRequest};

use pmb_line::laws::one_transaction;

/// A line spells one request at most, for the modes that devices have.
pub fn one_request()
    ensures { (mode : ℕ → Option ℕ) (line : List ℕ) (a b : RequestData) → SpellsRequest mode line a → SpellsRequest mode line b → a ≡ b }
{
    one_transaction();
}

/// A line has one first fault at most.
pub fn one_request_fault()
    ensures { (line : List ℕ) (a b : RequestFault) → IsRequestFault line a → IsRequestFault line b → a ≡ b }
{}

/// A line with a fault spells no request.
pub fn no_request_with_a_fault()
    ensures { (mode : ℕ → Option ℕ) (line : List ℕ) (request : RequestData) (fault : RequestFault) → SpellsRequest mode line request
        → IsRequestFault line fault → ⊥ }
{}

/// A line spells a request, or has a first fault, whatever modes the devices have.
pub fn request_or_fault()
    ensures { (mode : ℕ → Option ℕ) (line : List ℕ) → ((request : RequestData) × SpellsRequest mode line request) ⊎ ((fault : RequestFault) × IsRequestFault line fault) }
{}
