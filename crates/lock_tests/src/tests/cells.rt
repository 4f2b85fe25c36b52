ghost use Rattle.std.specs.Prelude.{◌≡◌};
ghost use Rattle.incumbent_cell.specs.Cell.{cell_of, own_cell};

use incumbent_cell::{CellPass, Least};
use std::alloc::Allocator;
use std::test::Fail;
use std::thread::join;

#[test]
fn the_least_cost_of_the_newest_edition_stands(rt: HostRuntime) -> Result<(), Fail> {
    let (cell, mut pass) = Least::new(rt.alloc())?;
    assert!(rt; cell.least(&mut pass) == (0, None));
    let rows: [(u16, u64, u32, Option<u64>); 7] = [
        (0, 24, 0, Some(24)),
        (0, 18, 0, Some(18)),
        (1, 24, 1, Some(24)),
        (0, 1, 1, Some(24)),
        (1, 1 << 47, 1, Some(24)),
        (2, (1 << 47) - 1, 2, None),
        (65535, 0, 65535, Some(0)),
    ];
    for (edition, cost, newest, least) in rows {
        cell.put(&mut pass, edition.into(), cost);
        assert!(rt;
            cell.least(&mut pass) == (newest, least),
            "after {cost} in {edition}"
        );
    }
    assert!(rt; cell.close(pass) == (65535, Some(0)));
    Ok(())
}

// Puts every second cost down from `from` in edition 3.
fn put_downwards(cell: &Least, mut pass: CellPass, from: u16) -> CellPass
    requires { own_cell pass ≡ cell_of cell.now }
    ensures { own_cell result ≡ cell_of cell.now }
{
    for step in 0..1000 {
        cell.put(&mut pass, 3, u64::from(from) + 2000 - 2 * step);
    }
    pass
}

#[test]
fn two_threads_leave_the_least_of_all_their_costs(rt: HostRuntime) -> Result<(), Fail> {
    let (cell, mut first) = Least::new(rt.alloc())?;
    let second = cell.split(&mut first);
    let (mut first, second) = join(
        &rt,
        || put_downwards(&cell, first, 3000),
        || put_downwards(&cell, second, 3001),
    );
    cell.join(&mut first, second);
    assert!(rt; cell.close(first) == (3, Some(3002)));
    Ok(())
}

fn is_send<T: Send>(_value: &T) {}

fn is_sync<T: Sync>(_value: &T) {}

fn cross_threads<A: Allocator + Send + Sync>(cell: &Least<A>, pass: &CellPass) {
    is_send(cell);
    is_sync(cell);
    is_send(pass);
}

#[test]
fn a_cell_is_shared_and_its_passes_are_sent(rt: HostRuntime) -> Result<(), Fail> {
    let (cell, pass) = Least::new(rt.alloc())?;
    cross_threads(&cell, &pass);
    Ok(())
}
