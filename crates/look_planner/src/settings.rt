//! The settings of a hypervisor's plan.

ghost use Rattle.std.specs.Prelude.{◌≡◌, ◌↔◌, IfErr, IfOk, IsOk, None, Some};
ghost use Rattle.migration_model.specs.Looks.{AreHypervisorSettings, HypervisorSettings};
ghost use Rattle.look_planner.specs.Refusals.{is_late, is_no_most, is_within, refusal_of};

use crate::error::LookSettingsError;
use std::marker::Model;

/// The greatest rate, in pages per 1,000 ticks.
const MAX_RATE: u64 = 1_000_000;

/// The longest window, and the last tick at which a record may end: `2^40`.
const MAX_TICKS: u64 = 1_099_511_627_776;

/// The greatest threshold, in pages.
const MAX_THRESHOLD: u64 = 65_536;

/// Settings as they are asked for, in any range.
#[derive(Clone, Copy, Debug, PartialEq, Eq)]
pub struct LookAsked {
    /// The tick at which the first list begins.
    pub start: u64,
    /// A warm start: the destination begins with the guest's memory before this tick. None is a cold start.
    pub base: Option<u64>,
    /// The rate, in pages per 1,000 ticks.
    pub rate: u64,
    /// How many ticks lie between two questions how many pages are left. If it is 0, the hypervisor asks only when all
    /// pages of a list are sent.
    pub window: u64,
    /// The hypervisor looks if fewer pages than these are left, and stops the guest if it then finds fewer.
    pub threshold: u64,
    /// The most looks, if there is a most.
    pub looks: Option<u64>,
    /// The tick at which the record ends: what the guest writes from there on is not known.
    pub end: u64,
}

impl Model for LookAsked {
    ghost Value = { HypervisorSettings };

    ghost view = { λ a. record {
      start = a.start;
      base = a.base;
      rate = a.rate;
      window = a.window;
      threshold = a.threshold;
      looks = a.looks;
      end = a.end;
    } };

    ghost inverse = { λ s. record {
      start = s.start;
      base = s.base;
      rate = s.rate;
      window = s.window;
      threshold = s.threshold;
      looks = s.looks;
      end = s.end;
    } };
}

/// Settings that are in range.
#[derive(Clone, Copy, Debug, PartialEq, Eq)]
pub struct LookSettings {
    asked: LookAsked,
}

impl Model for LookSettings {
    ghost Value = { HypervisorSettings };

    ghost view = { λ s. s.asked };

    ghost invariant = { λ s. AreHypervisorSettings s.asked };

    ghost inverse = { λ s. record { asked = s } };
}

/// Returns whether `n` is neither 0 nor above `high`.
fn is_within(high: u64, n: u64) -> bool
    ensures { result ≡ is_within high n }
{
    1 <= n && n <= high
}

/// Returns whether there is a greatest number of looks, and it is 0.
fn is_no_most(looks: Option<u64>) -> bool
    ensures { result ≡ is_no_most looks }
{
    match looks {
        Some(most) => most == 0,
        None => false,
    }
}

/// Returns whether there is a base, and it comes after the first tick.
fn is_late(base: Option<u64>, start: u64) -> bool
    ensures { result ≡ is_late base start }
{
    match base {
        Some(base) => base > start,
        None => false,
    }
}

/// Tests each setting against its range, in the order of the refusals.
fn check(asked: &LookAsked) -> Result<(), LookSettingsError>
    ensures refused { IfErr result (λ e. refusal_of asked.now ≡ Some e) }
    ensures accepted { IfOk result (λ _. refusal_of asked.now ≡ None) }
{
    if !is_within(MAX_RATE, asked.rate) {
        return Err(LookSettingsError::Rate);
    }
    if asked.window > MAX_TICKS {
        return Err(LookSettingsError::Window);
    }
    if !is_within(MAX_THRESHOLD, asked.threshold) {
        return Err(LookSettingsError::Threshold);
    }
    if is_no_most(asked.looks) {
        return Err(LookSettingsError::Looks);
    }
    if asked.end > MAX_TICKS {
        return Err(LookSettingsError::End);
    }
    if asked.start > asked.end {
        return Err(LookSettingsError::Start);
    }
    if is_late(asked.base, asked.start) {
        return Err(LookSettingsError::Base);
    }
    Ok(())
}

impl LookSettings {
    /// Returns these settings if each is in its range, or else the first refusal. It allocates nothing.
    pub fn new(asked: LookAsked) -> Result<LookSettings, LookSettingsError>
        ensures accepted { IfOk result (λ settings. settings ≡ asked) }
        ensures in_range { IsOk result ↔ AreHypervisorSettings asked }
        ensures refused { IfErr result (λ e. refusal_of asked ≡ Some e) }
    {
        check(&asked)?;
        Ok(LookSettings { asked })
    }

    /// Returns the settings as they were asked for.
    pub fn asked(&self) -> &LookAsked
        ensures value { result.now ≡ self.now }
        ensures in_range { AreHypervisorSettings self.now }
    {
        &self.asked
    }
}
