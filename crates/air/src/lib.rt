// A packet on the air, from the link layer that builds it to the one that hears it: no code of its own, but the law that ties whitening and CRC to the
// beacons of the radio (specs/Laws.antt).

#![tactic(auto)]
