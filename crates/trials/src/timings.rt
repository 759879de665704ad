//! Both sets of timers through the same acts, with results worked out by hand.

use timer_sets::countdown::Countdown;
use timer_sets::due_moments::DueMoments;
use timers::acts::{pass, run_only, run_out};
use timers::by_timer::Expired;
use timers::limit::TicksOutOfRange;
use timers::timer::Timer;
use timers::timer_set::TimerSet;

/// What is done with a set of timers.
#[derive(Clone, Copy)]
enum Act {
    Start(Timer, u32),
    Stop(Timer),
    Tick,
}

const ACTS: [Act; 10] = [
    Act::Start(Timer::Tu3904, 3),
    Act::Start(Timer::Tu3908, 65_535),
    Act::Start(Timer::Tu3907, 0),
    Act::Start(Timer::Tu3904, 65_536),
    Act::Tick,
    Act::Start(Timer::Tu3906, 2),
    Act::Stop(Timer::Tu3908),
    Act::Tick,
    Act::Tick,
    Act::Tick,
];

/// What an act answers.
#[derive(Clone, Copy, PartialEq, Eq, Debug)]
enum Answer {
    Started(Result<(), TicksOutOfRange>),
    Stopped,
    Expired(Expired),
}

/// What an act answers, and the ticks left after it.
#[derive(Clone, Copy, PartialEq, Eq, Debug)]
struct Seen {
    answer: Answer,
    left: [u32; 4],
}

fn perform<T: TimerSet>(timers: &mut T, act: Act) -> Seen {
    let answer = match act {
        Act::Start(timer, ticks) => Answer::Started(timers.start(timer, ticks)),
        Act::Stop(timer) => {
            timers.stop(timer);
            Answer::Stopped
        }
        Act::Tick => Answer::Expired(timers.tick()),
    };
    Seen {
        answer,
        left: Timer::ALL.map(|timer| timers.left(timer)),
    }
}

fn drive<T: TimerSet>(timers: &mut T) -> [Seen; 10] {
    ACTS.map(|act| perform(timers, act))
}

#[test]
fn both_sets_do_the_same_at_any_clock(rt: HostRuntime) {
    let seen = drive(&mut Countdown::new());
    for clock in [0, 4_294_967_290, 4_294_967_295] {
        assert_eq!(rt; drive(&mut DueMoments::new(clock)), seen);
    }
}

#[test]
fn a_start_out_of_bounds_changes_nothing(rt: HostRuntime) {
    let seen = drive(&mut Countdown::new());
    assert_eq!(rt; seen[1].answer, Answer::Started(Ok(())));
    assert_eq!(rt;
        seen[2].answer,
        Answer::Started(Err(TicksOutOfRange { ticks: 0 }))
    );
    assert_eq!(rt;
        seen[3].answer,
        Answer::Started(Err(TicksOutOfRange { ticks: 65_536 }))
    );
    assert_eq!(rt; seen[1].left, [3, 0, 0, 65_535]);
    assert_eq!(rt; seen[2].left, seen[1].left);
    assert_eq!(rt; seen[3].left, seen[1].left);
}

#[test]
fn two_timers_run_out_at_one_tick(rt: HostRuntime) {
    let seen = drive(&mut Countdown::new());
    let both = Expired {
        tu3904: true,
        tu3906: true,
        tu3907: false,
        tu3908: false,
    };
    assert_eq!(rt; seen[7].left, [1, 1, 0, 0]);
    assert_eq!(rt; seen[8].answer, Answer::Expired(both));
    assert_eq!(rt; seen[9].left, [0, 0, 0, 0]);
}

// Runs TU3907 alone for as long as it can, and says what is left of it three ticks before it runs out, and how many ticks that takes.
fn run_long<T: TimerSet>(timers: &mut T) -> Result<[u32; 2], TicksOutOfRange> {
    run_only(timers, Timer::Tu3907, 65_535)?;
    pass(timers, 65_532);
    let left = timers.left(Timer::Tu3907);
    Ok([left, run_out(timers, Timer::Tu3907)])
}

#[test]
fn a_timer_started_before_the_wrap_runs_out_on_time(rt: HostRuntime) {
    let mut moments = DueMoments::new(4_294_967_294);
    assert_eq!(rt; run_long(&mut Countdown::new()), Ok([3, 3]));
    assert_eq!(rt; run_long(&mut moments), Ok([3, 3]));
    assert_eq!(rt; moments.clock(), 65_533);
}
