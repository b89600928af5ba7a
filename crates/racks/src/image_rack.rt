ghost use Rattle.std.specs.Prelude.{◌≡◌, true, Ok, Err};
ghost use Rattle.telegrams.specs.Requests.{sent, heard};
ghost use Rattle.stations.specs.Images.{good_image, powered_in, place_at};
ghost use Rattle.values.specs.Tables.{table};
ghost use Rattle.lines.specs.Lines.{line_after, line_reply};
ghost use Rattle.racks.specs.Racks.{Opened, Carried, CarriedInPlace, Received};

use super::rack::Rack;
use lines::line::Line;
use stations::image::{POWER_UP, STATIONS, test_image};
use stations::station::Station;
use telegrams::request::{Reply, Request};
use telegrams::word::{decode_request, encode_request};
use values::address::Address;
use values::refusal::Refusal;

/// A rack that holds nothing but the caller's words, and takes each request as its telegram.
#[derive(Drop)]
pub struct ImageRack<'a> {
    pub words: &'a mut [u32],
    ghost good: { good_image words.now ≡ true },
}

impl<'a> ImageRack<'a> {
    /// A rack that means what the words say. A caller who gets the words back tests them first and then writes `ImageRack { words }`: of a slice that
    /// a `Result` may hold, a proof knows nothing more.
    pub fn open(words: &'a mut [u32]) -> Result<ImageRack<'a>, Refusal>
        ensures opened { Opened (λ i. powered_in i.words.now) (λ i. place_at i.words.now) words.old result }
        ensures holds { elim result [ Ok i ↦ i.words.now ≡ words.old | Err _ ↦ Unit {0} ] }
        ensures lender { elim result [ Ok i ↦ i.words.ghost_name ≡ words.entry.ghost_name | Err _ ↦ Unit {0} ] }
    {
        test_image(words)?;
        Ok(ImageRack { words })
    }

    /// A telegram arrives: the addressed station hears the request in it. A word that is no request is met with silence.
    pub fn receive(&mut self, telegram: u32) -> Reply
        ensures received { Received telegram self.old.words.now self.new.words.now (heard result) }
        ensures lender { self.new.words.ghost_name ≡ self.old.words.ghost_name }
    {
        match decode_request(telegram) {
            Ok(request) => self.hear(request),
            Err(_) => Reply::Silence,
        }
    }

    // Read and written back, where the bench rack lends its station in place: here a station is a word.
    fn hear(&mut self, request: Request) -> Reply
        ensures carried { Carried (sent request) self.old.words.now self.new.words.now (heard result) }
        ensures lender { self.new.words.ghost_name ≡ self.old.words.ghost_name }
    {
        if !self.is_powered() {
            return Reply::Silence;
        }
        let address = usize::from(request.address());
        let mut station = Station::from_word(self.words[address]);
        let reply = station.hear(request);
        self.words[address] = station.word();
        reply
    }
}

impl Line for ImageRack<'_> {
    ghost power = { λ i. powered_in i.words.now };

    ghost stations = { λ i. place_at i.words.now };

    // A rack keeps no record of requests: that it carried one is what the request made of it.
    ghost carried = { λ i q j. CarriedInPlace i.words q j.words };

    fn is_powered(&self) -> bool {
        self.words[STATIONS] == POWER_UP
    }

    fn carry(&mut self, request: Request) -> Reply
        ensures power { powered_in self.new.words.now ≡ powered_in self.old.words.now }
        ensures after { table (place_at self.new.words.now) ≡ line_after (powered_in self.old.words.now) (sent request) (table (place_at self.old.words.now)) }
        ensures reply { heard result ≡ line_reply (powered_in self.old.words.now) (sent request) (table (place_at self.old.words.now)) }
        ensures words { Carried (sent request) self.old.words.now self.new.words.now (heard result) }
        ensures carried { CarriedInPlace self.old.words (sent request) self.new.words }
    {
        self.receive(encode_request(request))
    }
}

impl Rack for ImageRack<'_> {
    fn station(&self, address: Address) -> Station {
        Station::from_word(self.words[usize::from(address)])
    }
}
