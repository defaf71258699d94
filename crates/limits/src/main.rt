// The formulas at the limits of document 01's numbers and past them, one line each: what is asked, then the refusal's number or 0, and the amount.
#![tactic(auto)]

mod asked;
mod cases;

use asked::Asked;
use virtuals::Side;

// A line that cannot be written is passed over.
fn show(rt: &impl Print, asked: Asked) {
    let (refusal, cents) = match asked.answer() {
        Ok(cents) => (0, cents),
        Err(refusal) => (refusal.number(), 0),
    };
    let _ = println!(rt; "{asked}: {refusal} {cents}");
}

fn main(rt: HostRuntime) {
    let groups = [
        cases::POINTS,
        cases::POINT_VALUES,
        cases::DIFFERENTIALS,
        cases::KINDS,
        cases::FIRST_REFUSALS,
        cases::LARGEST_BIDS,
        cases::SCHEDULES,
        cases::SECOND_PRICES,
        cases::LARGEST_POSTS,
        cases::ACTUALS,
        cases::POSTED_AMOUNTS,
        cases::LARGEST_FINISHES,
        cases::DELIVERIES,
        cases::BILLS,
        cases::CLOSES,
        cases::TWO_SIDES,
    ];
    for group in groups {
        for asked in group {
            show(&rt, *asked);
        }
    }
    for &[load_mwh, load_differential, supply_mwh, supply_differential] in cases::SIDES {
        let load = Side {
            mwh: load_mwh,
            differential: load_differential,
        };
        let supply = Side {
            mwh: supply_mwh,
            differential: supply_differential,
        };
        // While bid, and once posted.
        show(&rt, Asked::SidesBid(load, supply));
        show(&rt, Asked::SidesPosted(load, supply));
    }
}
