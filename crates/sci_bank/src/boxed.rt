// A box of a bank is a bank.
use crate::{Bank, Call, Fate, Stuck};
use sci_base::NoMemory;
use sci_kinds::{Kind, Spec};
use sci_span::Place;

impl Bank for Box<dyn Bank> {
    ghost meaning = { λ b. (Bank-box b).meaning b.value };

    fn kind(&self) -> Kind {
        (**self).kind()
    }

    fn outs(&self) -> u64 {
        (**self).outs()
    }

    fn reset(&mut self) {
        (**self).reset()
    }

    fn add(&mut self, spec: &Spec) -> Result<usize, NoMemory> {
        (**self).add(spec)
    }

    fn out(&mut self, slot: usize, mask: u64, ins: &[i64], outs: &mut [i64]) -> Fate {
        (**self).out(slot, mask, ins, outs)
    }

    fn out_run(&mut self, calls: &[Call], places: &[Place], values: &mut [i64]) -> Option<Stuck> {
        (**self).out_run(calls, places, values)
    }

    fn branch(&self, slot: usize, ins: &[i64]) -> u32 {
        (**self).branch(slot, ins)
    }

    fn delay(&self, slot: usize, port: u32, ins: &[i64]) -> i64 {
        (**self).delay(slot, port, ins)
    }

    fn update(&mut self, slot: usize, mask: u64, ins: &[i64]) {
        (**self).update(slot, mask, ins)
    }

    fn update_run(&mut self, calls: &[Call], places: &[Place], values: &[i64]) {
        (**self).update_run(calls, places, values)
    }

    fn state_at(&self, slot: usize, i: usize) -> i64 {
        (**self).state_at(slot, i)
    }
}
