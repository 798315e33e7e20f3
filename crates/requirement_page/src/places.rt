// The numbers of the answers on the page, by which links lead to their articles. They count from 1 the
// answers that are shown, in the order of the text: conflicts, what is met together, further answers,
// behaviours.
ghost use Rattle.std.specs.Prelude.{◌≡◌, ◌+◌, ◌^◌, ◌<◌, ◌≤◌};
ghost use Rattle.requirement_page.specs.Places.{next_number, number_behind, together_number, first_reply};
ghost use Rattle.requirement_page.specs.Places.{first_check};

use requirement_answers::{Reply, Report, Scope};
use requirement_report::is_hidden;

/// The number that the answer behind this one has. One that is hidden takes no number.
pub fn next_number(scope: Scope, number: u128, reply: &Reply) -> u128
    requires { number < 2 ^ 100 }
    ensures number { result ≡ next_number scope number reply.now }
    ensures next { result ≤ number + 1 }
{
    if is_hidden(scope, reply.asking, &reply.answer) {
        number
    } else {
        number + 1
    }
}

/// The number behind all these answers, of which the first that is shown has the number `first`.
fn number_behind(scope: Scope, first: u128, replies: &[Reply]) -> u128
    requires { first < 2 ^ 70 }
    ensures number { result ≡ number_behind scope first replies.now }
    ensures small { result < 2 ^ 80 }
{
    let mut number = first;
    for reply in replies {
        number = next_number(scope, number, reply);
    }
    number
}

/// The number of what is met together. It stands behind all conflicts.
pub fn together_number(report: &Report) -> u128
    ensures { result ≡ together_number report.now }
{
    report.conflicts.len() as u128 + 1
}

/// The number of the first further answer that is shown. It stands behind what is met together.
pub fn first_reply(report: &Report) -> u128
    ensures number { result ≡ first_reply report.now }
    ensures small { result < 2 ^ 70 }
{
    report.conflicts.len() as u128 + 2
}

/// The number of the first behaviour. It stands behind all further answers that are shown.
pub fn first_check(scope: Scope, report: &Report) -> u128
    ensures number { result ≡ first_check scope report.now }
    ensures small { result < 2 ^ 80 }
{
    number_behind(scope, first_reply(report), &report.replies)
}
