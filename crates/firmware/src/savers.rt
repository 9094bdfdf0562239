// The saver's calls. The record goes in by value and the new one comes back; the one premise is that a call gave it.
ghost use Rattle.std.specs.Prelude.{◌≡◌};
ghost use Rattle.saver.specs.Calls.{new_of, save_of, close_of, Given};
ghost use Rattle.saver.specs.Follows.{SaveFollows, CloseFollows};

use saver::{Answer, Saver};

pub fn dockplan_saver_new(cards: u8, pool: u16) -> Answer
    ensures answer { result ≡ new_of cards pool }
    ensures given { Given result.saver }
{
    Saver::new(cards, pool)
}

pub fn dockplan_saver_save(saver: Saver, card: u8) -> Answer
    requires { Given saver }
    ensures answer { result ≡ save_of saver card }
    ensures given { Given result.saver }
    ensures greedy { SaveFollows saver card result }
{
    saver.save(card)
}

pub fn dockplan_saver_close(saver: Saver) -> Answer
    requires { Given saver }
    ensures answer { result ≡ close_of saver }
    ensures given { Given result.saver }
    ensures greedy { CloseFollows saver result }
{
    saver.close()
}
