//! The releases of a span's handles, joined, tell its whole history.
ghost use Rattle.std.specs.Prelude.{◌≡◌, ◌≢◌, ◌≤◌, [], length, Some, None, vec_len, vec_capacity};
ghost use Rattle.thread_handles.specs.Gathers.{IsMet, MetAll};
ghost use Rattle.thread_handles.specs.Columns.{HaveLeft, WereTaken, column, AllComeToClosed, AreJoined};

use crate::job::Job;
use otel_base::record::Record;
use trace_threads::handle::Released;
use trace_threads::history::History;
use trace_threads::pass::Pass;

/// What is answered of a shared span.
#[derive(Drop)]
pub struct Ended {
    /// The pass of the release that closed the span.
    pub pass: Pass,
    /// The history of the span.
    pub history: History,
    /// Its record.
    pub finished: Record,
}

// Joins two releases. The pass of the one that closed the span takes in the other.
fn join_releases(one: Released, other: Released) -> Released
    requires span { other.pass.span ≡ one.pass.span }
    ensures { IsMet one other result }
{
    let Released { mut pass, closed } = one;
    let Released {
        pass: mut others,
        closed: last,
    } = other;
    match closed {
        Some(closed) => {
            pass.join(others);
            Released {
                pass,
                closed: Some(closed),
            }
        }
        None => {
            others.join(pass);
            Released {
                pass: others,
                closed: last,
            }
        }
    }
}

// The whole history of a span, once some release closed it.
fn finish(released: Released) -> Ended
    requires closed { released.closed ≢ None }
    ensures { (result.pass ≡ released.pass) × (released.closed ≡ Some (result.history, result.finished)) }
{
    let Released { pass, closed } = released;
    let Some((history, finished)) = closed else {
        unreachable!()
    };
    Ended {
        pass,
        history,
        finished,
    }
}

// Joins the next release of each worker to that of the first handle.
fn gather_next<G>(jobs: &mut [Job<G>], first: Released) -> Released
    requires left { HaveLeft first.pass.span 0 jobs.old }
    ensures len { length jobs.new ≡ length jobs.old }
    ensures taken { WereTaken 1 jobs.old jobs.new }
    ensures met { MetAll first (column first 0 jobs.old) result }
{
    let mut met = first;
    for w in 0..jobs.len() {
        let other = jobs[w].left.remove(0);
        met = join_releases(met, other);
    }
    met
}

/// Joins what the workers' handles left to the releases of the first handles, span by span.
pub fn gather_all<G>(jobs: &mut [Job<G>], mut firsts: Vec<Released>, ended: &mut Vec<Ended>)
    requires whole { AllComeToClosed firsts.items jobs.old }
    requires empty { ended.old.items ≡ [] }
    requires room { vec_len firsts ≤ vec_capacity ended.old }
    ensures same { length jobs.new ≡ length jobs.old }
    ensures len { vec_len ended.new ≡ vec_len firsts }
    ensures joined { AreJoined firsts.items jobs.old ended.new.items }
{
    for _ in 0..firsts.len() {
        let first = firsts.remove(0);
        ended.push_reserved(finish(gather_next(jobs, first)));
    }
}
