//! Settings for tests, and the report that they make.

use rate_limit::Asked;

/// Slow rates, at which the plan of the guest of five writes has three rounds and stops at tick 3667. A test gives only
/// what differs, as in `Asked { rounds: 3, ..ASKED }`.
pub const ASKED: Asked = Asked {
    min: 2,
    max: 4,
    increment: 1,
    threshold: 1,
    rounds: 8,
    ..Asked::DEFAULTS
};

/// The report on the trace of the guest of five writes with these settings.
pub static REPORT: &str = "trace pages 4 size 16 writes 5
window 0 writes 2 pages 2 again 0 fresh 2
window 1 writes 1 pages 1 again 1 fresh 0
window 2 writes 2 pages 2 again 1 fresh 1
hot 2 pages 1
page 1
round 0 from 0 to 2000 rate 2 pages 4 sent 4 dirtied 2
round 1 from 2000 to 3000 rate 2 pages 2 sent 2 dirtied 2
round 2 from 3000 to 3667 rate 3 pages 2 sent 2 dirtied 0
stop few at 3667 pages 0 down 0 total 8
";
