// Tracers by value: "input packet + 1, output packet + 1, object in hand, its next link, card in hand + 1, next granule on it".
ghost use Rattle.std.specs.Prelude.{◌≡◌, ◌+◌, ◌*◌, ◌^◌, ◌<◌};
ghost use Rattle.tracers_laws.specs.Tracer.{link_done, object_in_hand, card_taken, granule_moves_on, card_let_go, packet_becomes_input, output_becomes_input, output_goes_back, output_taken};
ghost use Rattle.tracers.specs.Plain.{tracer_of};

use image::word::Word;

#[derive(Clone, Copy, Debug, PartialEq, Eq)]
pub struct Tracer<W> {
    pub input: W,
    pub output: W,
    pub hand: W,
    pub link: W,
    pub card: W,
    pub granule: W,
}

// Each method is a sentence of reach, trace or clean, and hands back the next state. A packet is given by its number + 1.
#[tactic(auto, using(tracers_laws::proofs::Tracer::link_next, tracers_laws::proofs::Tracer::link_last), unfolding(tracers_laws::specs::Tracer::object_in_hand, tracers_laws::specs::Tracer::card_taken, tracers_laws::specs::Tracer::granule_moves_on, tracers_laws::specs::Tracer::card_let_go, tracers_laws::specs::Tracer::packet_becomes_input, tracers_laws::specs::Tracer::output_becomes_input, tracers_laws::specs::Tracer::output_goes_back, tracers_laws::specs::Tracer::output_taken))]
impl<W: Word> Tracer<W> {
    // "that link is reached, and after the last the hand is empty": the object has n links.
    pub fn link_done(mut self, n: W) -> Self
        requires { W.value self.link < W.value n }
        ensures { tracer_of W.value result ≡ link_done (tracer_of W.value self) (W.value n) }
    {
        let next = self.link.value() + 1;
        if next < n.value() {
            self.link = W::of(next);
            return self;
        }
        self.hand = W::of(0);
        self.link = W::of(0);
        self
    }

    // "it goes in hand at link 0"
    pub fn object_in_hand(mut self, g: W) -> Self
        ensures { tracer_of W.value result ≡ object_in_hand (tracer_of W.value self) (W.value g) }
    {
        self.hand = g;
        self.link = W::of(0);
        self
    }

    // "the lowest card .. is in hand at its first granule"
    pub fn card_taken(mut self, c: W) -> Self
        requires { 64 * (W.value c + 1) < 2 ^ W.BITS }
        ensures { tracer_of W.value result ≡ card_taken (tracer_of W.value self) (W.value c) }
    {
        self.card = W::of(c.value() + 1);
        self.granule = W::of(64 * c.value());
        self
    }

    // "the next granule is the one after its start": the start of the object at g
    pub fn granule_moves_on(mut self, g: W) -> Self
        requires { W.value g + 1 < 2 ^ W.BITS }
        ensures { tracer_of W.value result ≡ granule_moves_on (tracer_of W.value self) (W.value g) }
    {
        self.granule = W::of(g.value() + 1);
        self
    }

    // "the card is let go"
    pub fn card_let_go(mut self) -> Self
        ensures { tracer_of W.value result ≡ card_let_go (tracer_of W.value self) }
    {
        self.card = W::of(0);
        self.granule = W::of(0);
        self
    }

    // "the input goes back and the fullest pool packet .. becomes input"
    pub fn packet_becomes_input(mut self, p: W) -> Self
        ensures { tracer_of W.value result ≡ packet_becomes_input (tracer_of W.value self) (W.value p) }
    {
        self.input = p;
        self
    }

    // "the input goes back and the output becomes input"
    pub fn output_becomes_input(mut self) -> Self
        ensures { tracer_of W.value result ≡ output_becomes_input (tracer_of W.value self) }
    {
        self.input = self.output;
        self.output = W::of(0);
        self
    }

    // "A full or absent output packet first goes back"
    pub fn output_goes_back(mut self) -> Self
        ensures { tracer_of W.value result ≡ output_goes_back (tracer_of W.value self) }
    {
        self.output = W::of(0);
        self
    }

    // "the pool packet .. is taken. If there is none, no packet is held as output": then p is 0.
    pub fn output_taken(mut self, p: W) -> Self
        ensures { tracer_of W.value result ≡ output_taken (tracer_of W.value self) (W.value p) }
    {
        self.output = p;
        self
    }
}
