// The school calendar for a host in C or Rust (include/gerzulan.h). The call gives 0 and writes the lent numbering,
// or gives the number of its refusal and leaves the numbering.
#![tactic(auto)]

ghost use Rattle.std.specs.Prelude.{◌≡◌};
ghost use Rattle.calendar.specs.Calendar.{week_of};
ghost use Rattle.refusal.specs.Host.{answer_number, stored_in};

use calendar::Numbering;
use refusal::store;

// Which sites take part in a week, and their numbering. Refused, out stays.
#[unsafe(no_mangle)]
pub extern "C" fn gerzulan_calendar_week(calendar: &[u8], week: u16, out: &mut Numbering) -> u32
    ensures { (result ≡ answer_number (week_of calendar.now week))
        × (out.new ≡ stored_in (week_of calendar.now week) out.old) }
{
    store(calendar::week(calendar, week), out)
}
