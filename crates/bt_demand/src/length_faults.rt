// Is a schedule as long as the heaviest line of a matrix, and no longer? The matrix is at hand, or it is that of a
// demand, of which the line sums are enough.
ghost use Rattle.std.specs.Prelude.{◌≡◌, ℕ, List, length, MatchOption};
ghost use Rattle.bt_frame.specs.declared.limits.TheConstants.{MOST_BEAMS};
ghost use Rattle.bt_matrix.specs.Dense.{KeepsSums};
ghost use Rattle.bt_matrix.specs.Good.{IsLeast};
ghost use Rattle.bt_matrix.specs.Traffic.{line_sum, IsLine, IsHeaviest};
ghost use Rattle.bt_frame.specs.Range.{IsWithin};
ghost use Rattle.bt_frame.specs.Critical.{IsOfBeams};
ghost use Rattle.bt_demand.specs.Rows.{all_links};
ghost use Rattle.bt_demand.specs.Traffic.{matrix_of, AreOfNetwork, HasSumsTo};

use crate::LinkRow;
use bt_frame::{Critical, MOST_BEAMS, MOST_SUM, Schedule};
use bt_matrix::{Traffic, heaviest_line};
use bt_net::Network;

/// The heaviest line of a matrix and its sum, unless the length is this sum and the critical line has it.
pub(crate) fn heavier_in_matrix<M: Traffic>(
    matrix: &M,
    schedule: &Schedule,
) -> Option<(Critical, u32)>
    requires { IsLine (M.rows matrix.now) schedule.now.critical }
    ensures { MatchOption result
        (IsLeast (M.rows matrix.now) schedule.now)
        (λ heaviest. ¬ (IsLeast (M.rows matrix.now) schedule.now)
        × IsHeaviest (M.rows matrix.now) heaviest.0 heaviest.1) }
{
    let (line, most) = matrix.heaviest();
    if schedule.length == most && line_sum_of(matrix, schedule.critical) == most {
        None
    } else {
        Some((line, most))
    }
}

/// The slots of a line of a matrix.
fn line_sum_of<M: Traffic>(matrix: &M, line: Critical) -> u32
    requires { IsLine (M.rows matrix.now) line }
    ensures { result ≡ line_sum (M.rows matrix.now) line }
{
    match line {
        Critical::Row(up) => matrix.row_sum(up),
        Critical::Column(down) => matrix.column_sum(down),
    }
}

/// The slots that each line of a demand's matrix asks for.
#[derive(Drop)]
struct LineSums {
    rows: [u32; MOST_BEAMS],
    columns: [u32; MOST_BEAMS],
}

/// The heaviest line of a demand's matrix and its sum, unless the length is this sum and the critical line has it.
///
/// It looks once at each link.
pub(crate) fn heavier_in_demand(
    net: &Network,
    rows: &[LinkRow],
    schedule: &Schedule,
) -> Option<(Critical, u32)>
    requires of_network { AreOfNetwork net.now (all_links rows.now) }
    requires sums { HasSumsTo MOST_SUM (matrix_of net.now (all_links rows.now)) }
    requires critical { IsOfBeams (length net.now.beams) schedule.now.critical }
    ensures { MatchOption result
        (IsLeast (matrix_of net.now (all_links rows.now)) schedule.now)
        (λ heaviest. ¬ (IsLeast (matrix_of net.now (all_links rows.now)) schedule.now)
        × IsHeaviest (matrix_of net.now (all_links rows.now)) heaviest.0 heaviest.1) }
{
    let beams = net.beam_count() as usize;
    let sums = line_sums(net, rows);
    let (line, most) = heaviest_line(&sums.rows[..beams], &sums.columns[..beams]);
    let reached = kept_sum_of(&sums, schedule.critical);
    if schedule.length == most && reached == most {
        None
    } else {
        Some((line, most))
    }
}

/// The slots that each line asks for.
fn line_sums(net: &Network, demand: &[LinkRow]) -> LineSums
    requires beams { IsWithin 1 MOST_BEAMS (length net.now.beams) }
    requires of_network { AreOfNetwork net.now (all_links demand.now) }
    requires sums { HasSumsTo MOST_SUM (matrix_of net.now (all_links demand.now)) }
    ensures { KeepsSums (matrix_of net.now (all_links demand.now)) result.rows result.columns }
{
    let mut rows = [0; MOST_BEAMS];
    let mut columns = [0; MOST_BEAMS];
    for sent in demand {
        for link in sent.as_slice() {
            let up = net.beam_of(link.from);
            let down = net.beam_of(link.to);
            rows[up.0 as usize] += link.units;
            columns[down.0 as usize] += link.units;
        }
    }
    LineSums { rows, columns }
}

/// The slots that one line asks for, of the sums that were kept.
fn kept_sum_of(sums: &LineSums, line: Critical) -> u32
    requires { IsOfBeams MOST_BEAMS line }
    ensures { (rows : List (List ℕ)) → KeepsSums rows sums.now.rows sums.now.columns → IsLine rows line
        → result ≡ line_sum rows line }
{
    match line {
        Critical::Row(up) => sums.rows[up.0 as usize],
        Critical::Column(down) => sums.columns[down.0 as usize],
    }
}
