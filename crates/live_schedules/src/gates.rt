//! Gates that choose a schedule. Each wait ends after very many turns, and the gate then counts itself late.

use live_engine::{Gate, Point};
use std::sync::atomic::{AtomicU64, Ordering};
use std::thread;

/// How often a wait looks before it gives up.
const TURNS: u64 = 50_000_000;

/// How often each point was reached.
#[derive(Drop)]
pub struct Counts {
    pub stored: AtomicU64,
    pub marked: AtomicU64,
    pub harvested: AtomicU64,
    pub read: AtomicU64,
    /// How often the place of page 3 was read.
    pub third: AtomicU64,
    pub closed: AtomicU64,
    pub taken: AtomicU64,
    /// How many waits gave up.
    pub late: AtomicU64,
}

impl Counts {
    /// Returns counts with no point reached.
    pub fn new() -> Counts {
        Counts {
            stored: AtomicU64::new(0),
            marked: AtomicU64::new(0),
            harvested: AtomicU64::new(0),
            read: AtomicU64::new(0),
            third: AtomicU64::new(0),
            closed: AtomicU64::new(0),
            taken: AtomicU64::new(0),
            late: AtomicU64::new(0),
        }
    }

    fn count(&self, point: Point) {
        match point {
            Point::Stored { .. } => add_one(&self.stored),
            Point::Marked { .. } => add_one(&self.marked),
            Point::Harvested { .. } => add_one(&self.harvested),
            Point::Read { page, .. } => {
                add_one(&self.read);
                if page == 3 {
                    add_one(&self.third);
                }
            }
            Point::RoundClosed { .. } => add_one(&self.closed),
            Point::Taken { .. } => add_one(&self.taken),
            Point::Taking { .. } => {}
        }
    }

    /// Waits until a point was reached this often.
    fn wait_for(&self, count: &AtomicU64, least: u64) {
        for _ in 0..TURNS {
            if count.load(Ordering::SeqCst) >= least {
                return;
            }
            thread::yield_now();
        }
        add_one(&self.late);
    }

    /// Replayers wait for the first harvest, and copiers for the first store.
    fn meet(&self, point: Point) {
        match point {
            Point::Stored { .. } => self.wait_for(&self.harvested, 1),
            Point::Harvested { .. } => self.wait_for(&self.stored, 1),
            _ => {}
        }
    }
}

fn add_one(count: &AtomicU64) {
    count.fetch_add(1, Ordering::SeqCst);
}

/// Each side waits for the other's first step.
#[derive(Drop)]
pub struct Meeting(pub Counts);

impl Gate for Meeting {
    fn at(&self, point: Point) {
        self.0.count(point);
        self.0.meet(point);
    }
}

/// Copiers wait for the first store, and page 0 is marked after its store only once page 3 was read.
#[derive(Drop)]
pub struct MarkedLate(pub Counts);

impl Gate for MarkedLate {
    fn at(&self, point: Point) {
        self.0.count(point);
        match point {
            Point::Harvested { .. } => self.0.wait_for(&self.0.stored, 1),
            Point::Stored { page, .. } => {
                if page == 0 {
                    self.0.wait_for(&self.0.third, 1);
                }
            }
            _ => {}
        }
    }
}

/// Replayers wait for the first harvest, and copiers for three marks.
#[derive(Drop)]
pub struct MarkedEarly(pub Counts);

impl Gate for MarkedEarly {
    fn at(&self, point: Point) {
        self.0.count(point);
        match point {
            Point::Stored { .. } => self.0.wait_for(&self.0.harvested, 1),
            Point::Harvested { .. } => self.0.wait_for(&self.0.marked, 3),
            _ => {}
        }
    }
}

/// In each round replayers wait for that round's harvest; the first harvest waits for three marks, the second for five.
#[derive(Drop)]
pub struct MarkedInTurn(pub Counts);

impl Gate for MarkedInTurn {
    fn at(&self, point: Point) {
        self.0.count(point);
        let round = self.0.closed.load(Ordering::SeqCst);
        match point {
            Point::Stored { .. } => {
                self.0.wait_for(&self.0.harvested, round.saturating_add(1));
            }
            Point::Harvested { .. } => {
                let marks = match round {
                    0 => 3,
                    1 => 5,
                    _ => 0,
                };
                self.0.wait_for(&self.0.marked, marks);
            }
            _ => {}
        }
    }
}

/// How many rounds the worked example has.
const ROUNDS: u64 = 3;

/// Receivers look at no lane until all rounds are closed.
#[derive(Drop)]
pub struct SlowReceivers(pub Counts);

impl Gate for SlowReceivers {
    fn at(&self, point: Point) {
        self.0.count(point);
        match point {
            Point::Taking { .. } => self.0.wait_for(&self.0.closed, ROUNDS),
            _ => {}
        }
    }
}

/// Each side waits for the other's first step, and the receiver of stream 0 looks at no lane until all rounds close.
#[derive(Drop)]
pub struct SlowFirstReceiver(pub Counts);

impl Gate for SlowFirstReceiver {
    fn at(&self, point: Point) {
        self.0.count(point);
        self.0.meet(point);
        match point {
            Point::Taking { stream: 0 } => self.0.wait_for(&self.0.closed, ROUNDS),
            _ => {}
        }
    }
}

/// The first round is closed only once a frame was taken.
#[derive(Drop)]
pub struct TakenBeside(pub Counts);

impl Gate for TakenBeside {
    fn at(&self, point: Point) {
        self.0.count(point);
        match point {
            Point::RoundClosed { round: 0 } => self.0.wait_for(&self.0.taken, 1),
            _ => {}
        }
    }
}

/// Each side waits for the other's first step, and after each round all frames that were sent are taken.
#[derive(Drop)]
pub struct TakenInTurn(pub Counts);

impl Gate for TakenInTurn {
    fn at(&self, point: Point) {
        self.0.count(point);
        self.0.meet(point);
        match point {
            Point::RoundClosed { .. } => {
                let sent = self.0.read.load(Ordering::SeqCst);
                self.0.wait_for(&self.0.taken, sent);
            }
            _ => {}
        }
    }
}
