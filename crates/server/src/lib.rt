// The booking server's two calls (document 02, CR 4), for a program in C or Rust to link: those of `booking`, under names of their own.
#![tactic(auto)]

ghost use Rattle.std.specs.Prelude.{◌≡◌};
ghost use Rattle.wire.specs.Rows.{arc_table};
ghost use Rattle.wire.specs.Solve.{serving, served};
ghost use Rattle.wire.specs.Place.{told, telling};

// `booking::solve_bytes`.
#[unsafe(no_mangle)]
pub extern "C" fn jorrabide_server_solve(
    n: u32,
    s: u32,
    t: u32,
    stamp: u32,
    arcs: &[u8],
    flow: &mut [u8],
    side: &mut [u8],
    res: &mut [u8],
) -> u64
    ensures { served result flow.new side.new res.new ≡ serving (arc_table n s t arcs.now) stamp flow.old side.old res.old }
{
    booking::solve_bytes(n, s, t, stamp, arcs, flow, side, res)
}

// `booking::read_bytes`.
#[unsafe(no_mangle)]
pub extern "C" fn jorrabide_server_place(
    n: u32,
    s: u32,
    t: u32,
    stamp: u32,
    arcs: &[u8],
    answer: u32,
    flow: &[u8],
    side: &[u8],
    place: u32,
    res: &mut [u8],
) -> u64
    ensures { told result res.new ≡ telling (arc_table n s t arcs.now) stamp answer flow.now side.now place res.old }
{
    booking::read_bytes(n, s, t, stamp, arcs, answer, flow, side, place, res)
}
