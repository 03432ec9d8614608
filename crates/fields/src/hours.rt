// The hours on their day: how often hour 3 counts, which hours count, and those of a block. Assumes nothing.
ghost use Rattle.std.specs.Prelude.{◌≡◌, ◌≤◌};
ghost use Rattle.rules.specs.Hour.{when};
ghost use Rattle.rules.specs.Day.{change_hour, weight, is_counted};
ghost use Rattle.records.specs.Records.{holds_hour};
ghost use Rattle.fields.specs.Hours.{counted_hours, running_hours};

use crate::bounds::{CHANGE_BIT, CHANGE_HOUR, SPRING_HOURS};
use records::hour_count;

// How often hour 3 counts on a day of so many hours: not at all on 23, once on 24, twice on 25.
#[tactic(auto, unfolding(rules::specs::Day::weight))]
pub fn change_weight(day: u8) -> u32
    ensures { result ≡ weight day change_hour }
{
    u32::from(day.saturating_sub(SPRING_HOURS))
}

// Whether an hour counts at all.
pub fn is_counted(day: u8, hour: u32) -> bool
    ensures { result ≡ is_counted day hour }
{
    if hour == CHANGE_HOUR {
        change_weight(day) != 0
    } else {
        true
    }
}

// 1 where hour 3 is among a block's hours, else 0.
fn change_hour_of(hours: u32) -> u32
    ensures { (result ≡ when (holds_hour hours change_hour) 1) × (result ≤ 1) }
{
    hours / CHANGE_BIT % 2
}

// How many a block's hours are, each as often as it counts.
pub fn counted_hours(day: u8, hours: u32) -> u32
    ensures { result ≡ counted_hours day hours }
{
    let once = change_hour_of(hours);
    hour_count(hours) - once + change_weight(day) * once
}

// A block's hours without the one that does not count.
pub fn running_hours(day: u8, hours: u32) -> u32
    ensures { result ≡ running_hours day hours }
{
    if is_counted(day, CHANGE_HOUR) {
        hours
    } else {
        hours - CHANGE_BIT * change_hour_of(hours)
    }
}
