// The register: at most 16 names, in the order of registering, each with the exchange that it is tied to.
#![tactic(auto, using(std::proofs::lemmas::Grind::common_steps, crate::proofs::PlaceLaws::places))]

ghost use Rattle.std.specs.Prelude.{◌≡◌, [], length, nat_le};
ghost use Rattle.plain.specs.Effects.{without_name};
ghost use Rattle.plain.specs.Lookups.{tied_in};
ghost use Rattle.plain.specs.Reasons.{register_size};
ghost use Rattle.records.specs.Registers.{bindings_of, name_place, registered};

use fixed::FixedVec;
use plain::records::Binding;

#[derive(Clone, Copy)]
pub struct Register {
    bindings: FixedVec<Binding, SIZE>,
}

const SIZE: usize = 16;

impl Register {
    // An empty register.
    pub fn new() -> Register
        ensures { bindings_of result ≡ [] }
    {
        Register {
            bindings: FixedVec::new(Binding {
                name: [0; 8],
                exchange: 0,
            }),
        }
    }

    // Whether there is no room for another name.
    pub fn is_full(&self) -> bool
        ensures { result ≡ nat_le register_size (length (bindings_of self.now)) }
    {
        self.bindings.is_full()
    }

    // The exchange that the name is tied to, if it is registered.
    pub fn find(&self, name: &[u8; 8]) -> Option<u8>
        ensures { result ≡ tied_in name.now (bindings_of self.now) }
    {
        let at = self.place(name)?;
        Some(self.bindings.get(at)?.exchange)
    }

    // Ties the name to the exchange, behind the others. A full register is left as it is.
    pub fn add(&mut self, name: &[u8; 8], exchange: u8)
        ensures { bindings_of self.new ≡ registered name.now exchange (bindings_of self.old) }
    {
        self.bindings.push(Binding {
            name: *name,
            exchange,
        });
    }

    // Removes the name; the others stay in their order. The list does it; this looks the place up by a key of its own.
    pub fn strike(&mut self, name: &[u8; 8])
        ensures { bindings_of self.new ≡ without_name name.now (bindings_of self.old) }
    {
        if let Some(at) = self.place(name) {
            self.bindings.remove(at);
        }
    }

    // Where the name stands, if it is registered.
    fn place(&self, name: &[u8; 8]) -> Option<usize>
        ensures { result ≡ name_place name.now (bindings_of self.now) }
    {
        self.bindings
            .as_slice()
            .iter()
            .position(|binding| binding.name == *name)
    }
}
