//! What is known of a packet under way: each function is its contract, and does nothing.

ghost use Rattle.std.specs.Prelude.{List};
ghost use Rattle.pmb_bus.specs.declared.event.Event.{Event};
ghost use Rattle.pmb_command.specs.Parts.{DeviceParts};
ghost use Rattle.pmb_transaction.specs.Reading.{IsUnderWay};
ghost use Rattle.pmb_packet_state.specs.declared.packet_state.PacketState.{PacketState};
ghost use Rattle.pmb_packet_state.specs.PacketState.{StandsIn};

/// Some packet begins with the events of the packet under way, and they hold no whole one.
pub fn some_packet_is_under_way()
    ensures { (profile : List DeviceParts) (u : PacketState) (events : List Event) → StandsIn profile u events
        → IsUnderWay profile events }
{}
