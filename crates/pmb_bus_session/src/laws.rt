//! Laws over the definitions alone.

ghost use Rattle.std.specs.Prelude.{◌≡◌, ℕ, List};
ghost use Rattle.pmb_message.specs.declared.message.Message.{Message};
ghost use Rattle.pmb_bus_session.specs.Session.{MovesText, Opens, Requests, RunsThere, SendsMessage, SessionStands, StandsFresh};
ghost use Rattle.pmb_bus_session.specs.declared.session.BusGround.{BusGround};
ghost use Rattle.pmb_bus_session.specs.declared.session.BusSession.{BusSession};
ghost use Rattle.pmb_bus_session.specs.declared.work.BusAnswer.{BusAnswer};
ghost use Rattle.pmb_bus_session.specs.declared.work.BusStatus.TheVariants.{Done};

/// The devices of a new session stand somewhere, and each call hands that on.
pub fn sessions_stand()
    ensures fresh { (footing : BusGround) (session : BusSession) → StandsFresh footing session → SessionStands session }
    ensures opened { (old new : BusSession) (answer : BusAnswer) → SessionStands old → Opens old new answer
        → SessionStands new }
    ensures sent { (message : Message) (before after : List ℕ) (old new : BusSession) (answer : BusAnswer) → SessionStands old
        → SendsMessage message before after old new answer → SessionStands new }
    ensures requested { (line : List ℕ) (old new : BusSession) (answer : BusAnswer) → SessionStands old
        → Requests line old new answer → SessionStands new }
    ensures taken { (before after : List ℕ) (old new : BusSession) (answer : BusAnswer) → SessionStands old
        → MovesText before after old new answer → SessionStands new }
{}

/// So a request that was run has the answer of `run` on the devices as the calls before it left them, whether these
/// were messages or requests.
pub fn requests_are_run()
    ensures { (line : List ℕ) (old new : BusSession) (answer : BusAnswer) → SessionStands old
        → Requests line old new answer → answer.status ≡ Done → RunsThere line old new answer }
{}
