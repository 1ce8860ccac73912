// What holds of all certificates.
ghost use Rattle.certificate.specs.Laws.{NoneIsLonger, LongestIs, RoomForAny};

// How many bytes have room for every certificate of v candidates, and that `LONGEST` bytes have for every one.
#[tactic(auto, using(crate::proofs::Certificates::none_is_longer, crate::proofs::Certificates::room_for_any))]
pub fn longest_has_room()
    ensures each { NoneIsLonger }
    ensures longest { LongestIs }
    ensures room { RoomForAny }
{}
