// The answer bytes of the call from C.
ghost use Rattle.std.specs.Prelude.{◌≡◌, ◌≤◌, length};
ghost use Rattle.meaning.specs.Number.{filled};
ghost use Rattle.meaning.specs.Call.{answer_length, answer_bytes};

use chain::fraction::Fraction;
use octets::put_number;

const WIDTH: usize = 4;

// How long an answer is: four numbers.
pub const ANSWER_LENGTH: usize = 4 * WIDTH;

// Two fractions, numerators first. Bytes beyond these stay.
pub(crate) fn reply(answer: &mut [u8], lower: Fraction, upper: Fraction)
    requires { answer_length ≤ length answer.old }
    ensures { answer.new ≡ filled (answer_bytes lower.numerator lower.denominator upper.numerator upper.denominator) answer.old }
{
    let second = put_number(answer, 0, WIDTH, lower.numerator);
    let third = put_number(answer, second, WIDTH, lower.denominator);
    let fourth = put_number(answer, third, WIDTH, upper.numerator);
    put_number(answer, fourth, WIDTH, upper.denominator);
}
