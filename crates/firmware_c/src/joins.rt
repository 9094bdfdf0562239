// One showing from two tickets.
ghost use Rattle.std.specs.Prelude.{◌≡◌, length};
ghost use Rattle.join.specs.Join.{join_of, answer_of, buffer_after};
ghost use Rattle.join.specs.Numbers.{numbers_of};
ghost use Rattle.join.specs.Showing.{Showing};
ghost use Rattle.plain_answers.specs.Answers.{join_answer};

use plain_answers::joins::JoinAnswer;

// Writes the joined ticket over the front of `out`. `showing` is what request 2026-04 promises of it.
#[unsafe(no_mangle)]
pub extern "C" fn dockplan_join(first: &[u8], second: &[u8], out: &mut [u8]) -> JoinAnswer
    ensures answer { result ≡ join_answer (numbers_of (answer_of (join_of first.now second.now) (length out.old))) }
    ensures buffer { out.new ≡ buffer_after (join_of first.now second.now) out.old }
    ensures showing { Showing first.now second.now result.refusal result.bytes out.new }
{
    firmware::joins::dockplan_join(first, second, out)
}
