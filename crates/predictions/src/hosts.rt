//! Limits in the words of hypervisors.

ghost use Rattle.std.specs.Prelude.{◌≡◌, ◌++◌, OnOk};
ghost use Rattle.predictions.specs.Hosts.{bandwidth_line, hosts_text, libvirt_downtime, libvirt_speed};
ghost use Rattle.predictions.specs.Hosts.{libvirt_text, link_in_mib, millis_for_pages, number_line};
ghost use Rattle.predictions.specs.Hosts.{qemu_downtime, qemu_text, words_line};

use crate::units::Limits;
use std::alloc::AllocError;
use sweep_report::{end_line, push_field};

/// The longest downtime that QEMU takes, and with it libvirt, in milliseconds.
const LONGEST_MILLIS: u64 = 2_000_000;

/// Returns the downtime that the limits leave for pages, in milliseconds.
pub fn millis_for_pages(limits: &Limits) -> u64
    ensures { result ≡ millis_for_pages limits.now }
{
    limits.downtime.saturating_sub(limits.reserve) / 1000
}

/// Returns the link in whole MiB a second.
pub fn link_in_mib(limits: &Limits) -> u64
    ensures { result ≡ link_in_mib limits.now }
{
    limits.link / (1 << 20)
}

/// Appends some words and a number, as a line.
fn push_number(text: &mut Vec<u8>, words: &str, number: u64) -> Result<(), AllocError>
    ensures { OnOk result (text.new.items ≡ text.old.items ++ number_line words.now number) }
{
    push_field(text, words, number)?;
    end_line(text)
}

/// Appends words alone, as a line.
fn push_words(text: &mut Vec<u8>, words: &str) -> Result<(), AllocError>
    ensures { OnOk result (text.new.items ≡ text.old.items ++ words_line words.now) }
{
    text.extend_from_slice(words.as_bytes())?;
    end_line(text)
}

/// Appends the line on a rate in bytes a second. QEMU takes a number without a unit as MiB.
fn push_bandwidth(text: &mut Vec<u8>, link: u64) -> Result<(), AllocError>
    ensures { OnOk result (text.new.items ≡ text.old.items ++ bandwidth_line link) }
{
    push_field(text, "QEMU: migrate_set_parameter max-bandwidth ", link)?;
    text.extend_from_slice("B\n".as_bytes())?;
    Ok(())
}

/// Appends the line on a downtime of QEMU, in milliseconds.
#[tactic(auto, unfolding(crate::specs::Hosts::qemu_downtime))]
fn push_qemu_downtime(text: &mut Vec<u8>, millis: u64) -> Result<(), AllocError>
    ensures { OnOk result (text.new.items ≡ text.old.items ++ qemu_downtime millis) }
{
    if millis > LONGEST_MILLIS {
        return push_words(text, "QEMU: takes a downtime of at most 2,000 s");
    }
    push_number(text, "QEMU: migrate_set_parameter downtime-limit ", millis)
}

/// Appends the words of QEMU's monitor.
fn push_qemu(text: &mut Vec<u8>, limits: &Limits) -> Result<(), AllocError>
    ensures { OnOk result (text.new.items ≡ text.old.items ++ qemu_text limits.now) }
{
    push_bandwidth(text, limits.link)?;
    push_qemu_downtime(text, millis_for_pages(limits))
}

/// Appends the line on a speed of libvirt, in MiB a second. By 0 it means no limit.
#[tactic(auto, unfolding(crate::specs::Hosts::libvirt_speed))]
fn push_libvirt_speed(text: &mut Vec<u8>, mib: u64) -> Result<(), AllocError>
    ensures { OnOk result (text.new.items ≡ text.old.items ++ libvirt_speed mib) }
{
    if mib == 0 {
        return push_words(
            text,
            "libvirt: takes whole MiB a second, and the link has less than one",
        );
    }
    push_number(text, "libvirt: virsh migrate-setspeed DOMAIN ", mib)
}

/// Appends the line on a downtime of libvirt, in milliseconds. It takes what QEMU does, but 0.
#[tactic(auto, unfolding(crate::specs::Hosts::libvirt_downtime))]
fn push_libvirt_downtime(text: &mut Vec<u8>, millis: u64) -> Result<(), AllocError>
    ensures { OnOk result (text.new.items ≡ text.old.items ++ libvirt_downtime millis) }
{
    if millis == 0 || millis > LONGEST_MILLIS {
        return push_words(text, "libvirt: takes a downtime of 1 ms to 2,000 s");
    }
    push_number(
        text,
        "libvirt: virsh migrate-setmaxdowntime DOMAIN ",
        millis,
    )
}

/// Appends the words of libvirt's shell.
fn push_libvirt(text: &mut Vec<u8>, limits: &Limits) -> Result<(), AllocError>
    ensures { OnOk result (text.new.items ≡ text.old.items ++ libvirt_text limits.now) }
{
    push_libvirt_speed(text, link_in_mib(limits))?;
    push_libvirt_downtime(text, millis_for_pages(limits))
}

/// Appends the words that give QEMU and libvirt the same limits, a line each. Of what one does not take it says that.
pub fn push_hosts(text: &mut Vec<u8>, limits: &Limits) -> Result<(), AllocError>
    ensures { OnOk result (text.new.items ≡ text.old.items ++ hosts_text limits.now) }
{
    push_qemu(text, limits)?;
    push_libvirt(text, limits)
}
