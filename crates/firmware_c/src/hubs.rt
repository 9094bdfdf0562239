// A field hub with eight cards.
ghost use Rattle.std.specs.Prelude.{◌≡◌, length};
ghost use Rattle.hub.specs.Fullest.{Gathering};
ghost use Rattle.hub.specs.Gather.{answer_for, buffer_after};
ghost use Rattle.hub.specs.Numbers.{numbers_of};
ghost use Rattle.plain_answers.specs.Answers.{hub_answer};

use plain_answers::hubs::HubAnswer;

// Fills the first places of `cards`. `fullest` is what request 2026-06 promises of them.
#[unsafe(no_mangle)]
pub extern "C" fn dockplan_hub(chosen: &[u8], cameras: &[u8], cards: &mut [u8]) -> HubAnswer
    ensures answer { result ≡ hub_answer (numbers_of (answer_for chosen.now cameras.now (length cards.old))) }
    ensures buffer { cards.new ≡ buffer_after chosen.now cameras.now cards.old }
    ensures fullest { Gathering chosen.now result.refusal result.frames cards.new }
{
    firmware::hubs::dockplan_hub(chosen, cameras, cards)
}
