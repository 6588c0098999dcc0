// The worklist: the sheets that wait as a mask, and for each sheet the columns that lost values since it was last looked at.
//
//     waiting    bit s is set: sheet s is to be looked at
//     changed    | columns that sheet 0 has not seen change | sheet 1 | ..
ghost use Rattle.std.specs.Prelude.{◌≡◌, true, ◌<◌, get_or};
ghost use Rattle.std.specs.Int.Count.{count_trailing_zeros};
ghost use Rattle.model.specs.Masks.{bit};
ghost use Rattle.engine.specs.Worklists.{waits_bit, WaitingFor, Added, Woken};

// The lowest sheet that waits.
pub fn first_waiting(waiting: u32) -> usize
    requires { (0 < waiting) × (waiting < 256) }
    ensures { (result ≡ count_trailing_zeros 32 waiting) × (result < 8) × (bit result waiting ≡ true) }
{
    u32::trailing_zeros(waiting) as usize
}

// Sheet f, which has these columns, as a bit, if one of them is in `lost`.
fn waits(columns: u32, lost: u32, f: usize) -> u32
    requires { f < 8 }
    ensures { (result ≡ waits_bit columns lost f) × (result < 256) }
{
    if columns & lost == 0 { 0 } else { 1u32 << f }
}

// The sheets with a column in `lost`.
pub fn waiting_for(scopes: &[u32; 8], lost: u32) -> u32
    ensures { WaitingFor scopes.now lost 8 result }
{
    let mut waiting = 0;
    for (f, columns) in scopes.iter().enumerate() {
        waiting |= waits(*columns, lost, f);
    }
    waiting
}

// The columns in `lost` are new to every sheet.
fn add_lost(changed: &mut [u32; 8], lost: u32)
    ensures { Added changed.old lost 8 changed.new }
{
    for columns in changed {
        *columns |= lost;
    }
}

// Sheet s struck the columns in `lost`: every other sheet with such a column waits. The sheets that wait.
pub fn wake(scopes: &[u32; 8], changed: &mut [u32; 8], waiting: u32, s: usize, lost: u32) -> u32
    requires { (waiting < 256) × (s < 8) × (get_or changed.old s 0 ≡ 0) }
    ensures { Woken scopes.now s lost changed.old waiting changed.new result }
{
    if lost == 0 {
        return waiting;
    }
    add_lost(changed, lost);
    changed[s] = 0;
    waiting | (waiting_for(scopes, lost) & !(1u32 << s))
}
