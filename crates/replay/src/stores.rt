// The five stores of a script, and how much of each a call is lent.
use forging::Store;
use scripts::Lent;

#[derive(Drop)]
pub struct Stores {
    pub amplitudes: [f32; 4104],
    pub phases: [f32; 4104],
    pub baseline: [f32; 264],
    pub means: [f32; 264],
    pub variances: [f32; 264],
}

// What a script begins with: all that the calls need, and no place more.
pub fn full() -> Lent {
    Lent {
        amplitudes: 4096,
        phases: 4096,
        baseline: 256,
        means: 256,
        variances: 256,
    }
}

// Place p holds the float with bits 0x3f000000 + p.
fn refresh(store: &mut [f32]) {
    for (place, bits) in store.iter_mut().zip(0x3f00_0000u32..0x4000_0000) {
        *place = floats::from_bits(bits);
    }
}

// The first n places of a store that is written, or all where there are fewer; `lists::front` is for one that is read.
pub fn front_mut(store: &mut [f32], n: usize) -> &mut [f32] {
    let n = n.min(store.len());
    &mut store[..n]
}

// A number of the whole store.
fn sum(store: &[f32]) -> u64 {
    store.iter().fold(7, |h, x| {
        (h % 72_057_594_037_927_931 * 31 + u64::from(floats::to_bits(*x))) % 72_057_594_037_927_931
    })
}

impl Stores {
    pub fn fresh() -> Self {
        let mut stores = Stores {
            amplitudes: [0.0; 4104],
            phases: [0.0; 4104],
            baseline: [0.0; 264],
            means: [0.0; 264],
            variances: [0.0; 264],
        };
        stores.refresh();
        stores
    }

    // What a script begins with, in place.
    pub fn refresh(&mut self) {
        refresh(&mut self.amplitudes);
        refresh(&mut self.phases);
        refresh(&mut self.baseline);
        refresh(&mut self.means);
        refresh(&mut self.variances);
    }

    pub fn sums(&self) -> [u64; 5] {
        [
            sum(&self.amplitudes),
            sum(&self.phases),
            sum(&self.baseline),
            sum(&self.means),
            sum(&self.variances),
        ]
    }

    // The place value div 2^32 of a store gets the low bits of value.
    pub fn forge(&mut self, store: Store, value: u64) {
        match store {
            Store::Amplitudes => forging::forge_store(&mut self.amplitudes, value),
            Store::Phases => forging::forge_store(&mut self.phases, value),
            Store::Baseline => forging::forge_store(&mut self.baseline, value),
            Store::Means => forging::forge_store(&mut self.means, value),
            Store::Variances => forging::forge_store(&mut self.variances, value),
        }
    }
}
