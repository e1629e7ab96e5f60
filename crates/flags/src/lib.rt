// The octet of Flags, the record that says how a device may be found (the Supplement, Part A, 1.3).
#![tactic(auto)]

ghost use Rattle.std.specs.Prelude.{◌≡◌, ◌==◌, not, bit_and};
ghost use Rattle.flags.specs.Flags.{named, limited_discoverable, general_discoverable, supports_classic, both_by_controller, both_by_host, discoverable_flags, broadcast_flags};

// The octet of a Flags record: discoverable modes, and BR/EDR beside LE (the Supplement, Part A, 1.3).
#[derive(Clone, Copy)]
pub struct Flags {
    bits: u8,
}

impl Flags {
    pub const LE_LIMITED_DISCOVERABLE: u8 = 0x01;

    pub const LE_GENERAL_DISCOVERABLE: u8 = 0x02;

    pub const BR_EDR_NOT_SUPPORTED: u8 = 0x04;

    pub const SIMUL_LE_BR_CONTROLLER: u8 = 0x08;

    pub const SIMUL_LE_BR_HOST: u8 = 0x10;
    // The bits above.
    const ALL: u8 = 0x1F;

    // The flags of an octet, whose bits without a name are cleared.
    pub fn from_bits_truncate(bits: u8) -> Flags
        ensures { result.bits ≡ named bits }
    {
        Flags {
            bits: bits & Flags::ALL,
        }
    }

    // The Flags of a start: general discoverable, no BR/EDR.
    pub fn discoverable() -> Flags
        ensures { result.bits ≡ discoverable_flags }
    {
        Flags {
            bits: Flags::BR_EDR_NOT_SUPPORTED | Flags::LE_GENERAL_DISCOVERABLE,
        }
    }

    // The Flags of a beacon: not discoverable, no BR/EDR.
    pub fn broadcast() -> Flags
        ensures { result.bits ≡ broadcast_flags }
    {
        Flags {
            bits: Flags::BR_EDR_NOT_SUPPORTED,
        }
    }

    // The octet of the flags.
    pub fn to_u8(self) -> u8
        ensures { result ≡ named self.bits }
    {
        self.bits & Flags::ALL
    }

    fn contains(self, flag: u8) -> bool
        ensures { result ≡ not (bit_and self.bits flag == 0) }
    {
        self.bits & flag != 0
    }

    // As the Core has it; rubble answers the opposite (D21).
    pub fn supports_classic_bluetooth(self) -> bool
        ensures { result ≡ supports_classic self.bits }
    {
        !self.contains(Flags::BR_EDR_NOT_SUPPORTED)
    }

    pub fn le_limited_discoverable(self) -> bool
        ensures { result ≡ limited_discoverable self.bits }
    {
        self.contains(Flags::LE_LIMITED_DISCOVERABLE)
    }

    pub fn le_general_discoverable(self) -> bool
        ensures { result ≡ general_discoverable self.bits }
    {
        self.contains(Flags::LE_GENERAL_DISCOVERABLE)
    }

    pub fn simul_le_br_controller(self) -> bool
        ensures { result ≡ both_by_controller self.bits }
    {
        self.contains(Flags::SIMUL_LE_BR_CONTROLLER)
    }

    pub fn simul_le_br_host(self) -> bool
        ensures { result ≡ both_by_host self.bits }
    {
        self.contains(Flags::SIMUL_LE_BR_HOST)
    }
}
