// Intervals, fitted ones and masks that were worked out by hand.
ghost use Rattle.sci_ranges_base.specs.Intervals.{HasEnds, exact};
ghost use Rattle.sci_ranges_base.specs.Wide.{numbers};

use sci_base::{Mode, Ty};
use sci_ranges_base::fitting::{fitted_range, wrapped_up_to};
use sci_ranges_base::masks::{may_be_both, may_lack_one, some_choose};
use sci_ranges_base::{Cells, Interval, Masks, Wide, hull_of, join, meet, within};

fn wide(least: i64, greatest: i64) -> Wide
    ensures { HasEnds exact (numbers result) }
{
    Wide::of(Interval::new(least, greatest)).times(1)
}

fn some(least: i64, greatest: i64) -> Option<Interval> {
    Some(Interval::new(least, greatest))
}

fn values(least: i64, greatest: i64) -> Cells {
    Cells::of(Interval::new(least, greatest))
}

#[test]
fn fitted(rt: HostRuntime) {
    assert_eq!(rt;
        fitted_range(Ty::U8, Mode::Wrap, wide(256, 260)),
        values(0, 4)
    );
    assert_eq!(rt;
        fitted_range(Ty::U8, Mode::Wrap, wide(250, 260)),
        values(0, 255)
    );
    assert_eq!(rt;
        wrapped_up_to(Ty::U8, 248, wide(0, 256)),
        Interval::new(0, 248)
    );
    assert_eq!(rt;
        fitted_range(Ty::I8, Mode::Saturate, wide(-200, 100)),
        values(-128, 100)
    );
    assert_eq!(rt;
        fitted_range(Ty::I8, Mode::Stop, wide(100, 200)),
        Cells::or_overflow(some(100, 127))
    );
    assert_eq!(rt;
        fitted_range(Ty::I8, Mode::Stop, wide(128, 200)),
        Cells::or_overflow(None)
    );
    assert_eq!(rt;
        fitted_range(Ty::I8, Mode::Stop, wide(-128, 127)),
        values(-128, 127)
    );
}

#[test]
fn combined(rt: HostRuntime) {
    assert_eq!(rt; hull_of(&[3, -1, 7]), some(-1, 7));
    assert_eq!(rt; hull_of(&[]), None);
    assert_eq!(rt; join(some(1, 2), some(5, 6)), some(1, 6));
    assert_eq!(rt; join(None, some(5, 6)), some(5, 6));
    assert_eq!(rt; meet(some(1, 5), some(3, 6)), some(3, 5));
    assert_eq!(rt; meet(some(1, 2), some(5, 6)), None);
    assert_eq!(rt; within(some(1, 2), some(1, 6)), true);
    assert_eq!(rt; within(some(0, 2), some(1, 6)), false);
}

#[test]
fn multiplied(rt: HostRuntime) {
    assert_eq!(rt; Wide::of(Interval::new(-3, 5)).times(-2), wide(-10, 6));
}

// Input 1 surely is activated, input 2 may be; or input 2 alone may be.
#[test]
fn chosen(rt: HostRuntime) {
    let first = [Masks { certain: 1, may: 3 }];
    let second = [Masks { certain: 0, may: 2 }];
    assert_eq!(rt; some_choose(&first, 0), true);
    assert_eq!(rt; some_choose(&first, 1), false);
    assert_eq!(rt; some_choose(&second, 0), false);
    assert_eq!(rt; some_choose(&second, 1), true);
    assert_eq!(rt; (may_be_both(&first), may_lack_one(&first)), (true, true));
    assert_eq!(rt;
        (may_be_both(&second), may_lack_one(&second)),
        (false, true)
    );
}
