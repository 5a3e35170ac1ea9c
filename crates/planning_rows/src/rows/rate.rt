//! Worked examples: refusals in their order, rates and stop tests, and printed names.

use rate_limit::{Asked, Next, Reason, Settings, SettingsError, dirty_rate, duration, next};
use worked_guest::ASKED;

/// Settings of a warm start, with `workers` workers.
fn warm(base: u64, start: u64, workers: u64) -> Asked {
    Asked {
        base: Some(base),
        start,
        workers,
        ..ASKED
    }
}

fn refusal(asked: Asked) -> Option<SettingsError> {
    Settings::new(asked).err()
}

#[test]
fn first_setting_out_of_range_is_named(rt: HostRuntime) {
    // the rates, the rounds, the workers, and the cause
    const ROWS: [(u64, u64, u64, u64, Option<SettingsError>); 6] = [
        (2, 4, 8, 1, None),
        (0, 4, 8, 1, Some(SettingsError::MinRate)),
        (2, 1, 8, 1, Some(SettingsError::MaxRate)),
        (2, 4, 65, 1, Some(SettingsError::Rounds)),
        (2, 4, 8, 17, Some(SettingsError::Parallelism)),
        (0, 4, 8, 17, Some(SettingsError::MinRate)),
    ];
    for &(min, max, rounds, workers, cause) in &ROWS {
        let asked = Asked {
            min,
            max,
            rounds,
            workers,
            ..ASKED
        };
        assert!(rt; refusal(asked) == cause);
    }
    let of_bases = [warm(5, 5, 1), warm(6, 5, 1), warm(6, 5, 17)].map(refusal);
    let causes = [
        None,
        Some(SettingsError::BaseTick),
        Some(SettingsError::Parallelism),
    ];
    assert!(rt; of_bases == causes);
}

#[test]
fn refusals_have_their_names(rt: HostRuntime) {
    const NAMES: [(SettingsError, &str); 10] = [
        (SettingsError::MinRate, "S1"),
        (SettingsError::MaxRate, "S2"),
        (SettingsError::Increment, "S3"),
        (SettingsError::Threshold, "S4"),
        (SettingsError::Rounds, "S5"),
        (SettingsError::WindowLength, "S6"),
        (SettingsError::HotWindows, "S7"),
        (SettingsError::StartTick, "S8"),
        (SettingsError::Parallelism, "S9"),
        (SettingsError::BaseTick, "S10"),
    ];
    for &(error, name) in &NAMES {
        let text = format!(in rt.alloc(); "{error}").expect(&rt, "memory");
        assert!(rt; text.as_str() == name);
    }
}

#[test]
fn durations_and_rates_are_rounded_up(rt: HostRuntime) {
    let durations = [duration(2, 3), duration(65_536, 1), duration(1, u64::MAX)];
    assert!(rt; durations == [667, 65_536_000, 1]);
    let rates = [dirty_rate(1, 2000), dirty_rate(2, 500), dirty_rate(0, 7)];
    assert!(rt; rates == [1, 4, 0]);
}

#[test]
fn stop_tests_come_in_order(rt: HostRuntime) {
    let settings = Settings::new(ASKED).expect(&rt, "settings");
    assert!(rt; *settings.asked() == ASKED);
    let steady = Settings::new(Asked {
        min: 10,
        max: 10,
        increment: 0,
        ..ASKED
    })
    .expect(&rt, "settings");
    let answers = [
        next(&settings, 0, 1000, 8),
        next(&settings, 4, 1000, 8),
        next(&settings, 3, 1000, 8),
        next(&settings, 3, 1000, 7),
        next(&steady, 1, 1000, 1),
        next(&settings, 0, 0, 1),
    ];
    assert!(rt;
        answers
            == [
                Next::Stop(Reason::Few),
                Next::Stop(Reason::Fast),
                Next::Stop(Reason::Rounds),
                Next::Go(4),
                Next::Go(10),
                Next::Stop(Reason::Few)
            ]
    );
}
