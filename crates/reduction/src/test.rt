// Test: is a system, after free reduction of its words, reduced?
ghost use Rattle.std.specs.Prelude.{◌≡◌};
ghost use Rattle.runs.specs.Runs.{stopped};
ghost use Rattle.reduction.specs.Meaning.{TestMeans};
ghost use Rattle.reduction.specs.Reduction.{test_answer};

use crate::answers::Tested;
use marks::Search;
use records::answers::Verdict;
use runs::find_move;
use slots::checks::check_system;

// Tests whether the freely reduced words of a system are reduced.
pub fn test(system: &[u8]) -> Tested
    ensures answer { result ≡ test_answer system.now }
    ensures means { TestMeans system.now result }
{
    let checked = check_system(system);
    let Ok(()) = checked else {
        return Tested::from(checked);
    };
    let mut search = Search::new();
    search.load(system);
    Tested {
        verdict: Verdict::Done,
        reduced: is_reduced(&mut search),
    }
}

// Whether the words of a system are reduced: neither rule applies to them.
pub fn is_reduced(search: &mut Search) -> bool
    ensures reduced { result ≡ stopped search.old }
    ensures same { search.new ≡ search.old }
{
    find_move(search).is_none()
}
