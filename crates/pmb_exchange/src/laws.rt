//! Laws on what a host does on a bus of simulated devices: each function is its contract, and does
//! nothing.

ghost use Rattle.std.specs.Prelude.{◌≡◌, ℕ, Option, List, map};
ghost use Rattle.pmb_command.specs.Bus.{IsBus};
ghost use Rattle.pmb_command.specs.Parts.{DeviceParts};
ghost use Rattle.pmb_transaction.specs.Transaction.{TransactionData};
ghost use Rattle.pmb_registers.specs.State.{InState};
ghost use Rattle.pmb_devices.specs.Bus.{AnsweredSignal};
ghost use Rattle.pmb_value.specs.declared.number_format.NumberFormat.{NumberFormat};
ghost use Rattle.pmb_request.specs.Request.{RequestData};
ghost use Rattle.pmb_host.specs.declared.step.HostStep.{HostStep};
ghost use Rattle.pmb_host.specs.Host.{Job};
ghost use Rattle.pmb_host.specs.Rules.{IsAllowed};
ghost use Rattle.pmb_host.specs.Task.{task_of};
ghost use Rattle.pmb_exchange.specs.Exchange.{Exchanges};
ghost use Rattle.pmb_exchange.specs.Run.{HasRun, IsExchanged};

/// What a host does on a bus is the exchange that its request asks for: the transaction with the
/// device's own reply, or refused where a device has no such page or refuses to be read. No device
/// leaves an Ask without a byte, nor gives a wrong packet error code.
pub fn runs_are_exchanges()
    ensures { (job : Job) (members : List InState) (heard : List AnsweredSignal) (step : HostStep) → HasRun job members heard step
        → IsExchanged job members heard step }
{}

/// On the devices of an accepted bus a task comes to one transaction.
pub fn an_exchange_is_one()
    ensures { (profile : List DeviceParts) (members : List InState) (task a b : TransactionData) → IsBus profile
        → map (λ m. m.device) members ≡ profile → Exchanges members task a → Exchanges members task b → a ≡ b }
{}

/// What an allowed request asks for comes to some transaction on the devices of an accepted bus.
pub fn some_exchange()
    ensures { (profile : List DeviceParts) (members : List InState) (request : RequestData) (word : ℕ) (number : Option NumberFormat) → IsBus profile
        → map (λ m. m.device) members ≡ profile → IsAllowed profile request word number
        → (done : TransactionData) × Exchanges members (task_of request word) done }
{}
