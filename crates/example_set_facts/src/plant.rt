// Written by enumset_derive example_set_facts plant from Alarm: change the source, and write this again.

use enumset::internal::ArrayRepr;
use enumset::{EnumSetType, EnumSetTypeWithRepr};

/// An alarm of a power plant. A later one is more urgent.
#[derive(Clone, Copy, PartialEq, Eq, Debug)]
pub enum Alarm {
    LampBroken,
    DoorOpen,
    GateOpen,
    LogNearlyFull,
    PrinterOffline,
    ClockAdrift,
    BackupFailed,
    CalibrationDue,
    InspectionDue,
    FilterDirty,
    OilChangeDue,
    GreaseLow,
    StoreNearlyEmpty,
    WeatherStationOffline,
    CameraOffline,
    IntercomOffline,
    HeatingFailed,
    CoolingFailed,
    VentilationFailed,
    HumidityHigh,
    HumidityLow,
    DustHigh,
    NoiseHigh,
    DrainBlocked,
    SumpLevelHigh,
    CompressorTripped,
    AirPressureLow,
    HydraulicPressureLow,
    LubePressureLow,
    LubeTemperatureHigh,
    BearingTemperatureHigh,
    BearingVibrationHigh,
    GearboxVibrationHigh,
    SensorFailed,
    SensorDisagrees,
    ControllerOffline,
    NetworkDegraded,
    NetworkLost,
    BatteryLow,
    BatteryHot,
    ChargerFailed,
    BusVoltageLow,
    BusVoltageHigh,
    FrequencyLow,
    FrequencyHigh,
    EarthFault,
    BreakerTripped,
    TransformerHot,
    TransformerGas,
    GeneratorHot,
    GeneratorOverload,
    CondenserVacuumLow,
    FeedWaterLow,
    FeedPumpTripped,
    CoolantFlowLow,
    CoolantTemperatureHigh,
    ValveStuck,
    DrumLevelLow,
    DrumLevelHigh,
    SteamTemperatureHigh,
    SteamPressureHigh,
    FuelPressureLow,
    FuelLeak,
    FlameLost,
    FurnacePressureHigh,
    TurbineOverspeed,
    GasDetected,
    SmokeDetected,
    FireDetected,
    EmergencyStop,
}

impl EnumSetType for Alarm {
    ghost use Rattle.std.specs.Prelude.{◌∷◌, []};
    ghost use Rattle.enumset.specs.Sets.{in_place, lawful_in_words, lawful_in_place};
    ghost use Rattle.example_set_facts.specs.contracts.plant.Alarm.{the_type};

    type Repr = ArrayRepr<2>;

    ghost elements = { in_place the_type };

    ghost ALL_BITS = { 18446744073709551615 ∷ 63 ∷ [] };

    const ALL_BITS: ArrayRepr<2> = ArrayRepr([0xFFFFFFFFFFFFFFFF, 0x3F]);

    ghost BIT_WIDTH = { 70 };

    const BIT_WIDTH: u32 = 70;

    ghost VARIANT_COUNT = { 70 };

    const VARIANT_COUNT: u32 = 70;

    fn enum_into_u32(self) -> u32 {
        self as u32
    }

    fn enum_from_u32(val: u32) -> Self {
        match val {
            0 => Self::LampBroken,
            1 => Self::DoorOpen,
            2 => Self::GateOpen,
            3 => Self::LogNearlyFull,
            4 => Self::PrinterOffline,
            5 => Self::ClockAdrift,
            6 => Self::BackupFailed,
            7 => Self::CalibrationDue,
            8 => Self::InspectionDue,
            9 => Self::FilterDirty,
            10 => Self::OilChangeDue,
            11 => Self::GreaseLow,
            12 => Self::StoreNearlyEmpty,
            13 => Self::WeatherStationOffline,
            14 => Self::CameraOffline,
            15 => Self::IntercomOffline,
            16 => Self::HeatingFailed,
            17 => Self::CoolingFailed,
            18 => Self::VentilationFailed,
            19 => Self::HumidityHigh,
            20 => Self::HumidityLow,
            21 => Self::DustHigh,
            22 => Self::NoiseHigh,
            23 => Self::DrainBlocked,
            24 => Self::SumpLevelHigh,
            25 => Self::CompressorTripped,
            26 => Self::AirPressureLow,
            27 => Self::HydraulicPressureLow,
            28 => Self::LubePressureLow,
            29 => Self::LubeTemperatureHigh,
            30 => Self::BearingTemperatureHigh,
            31 => Self::BearingVibrationHigh,
            32 => Self::GearboxVibrationHigh,
            33 => Self::SensorFailed,
            34 => Self::SensorDisagrees,
            35 => Self::ControllerOffline,
            36 => Self::NetworkDegraded,
            37 => Self::NetworkLost,
            38 => Self::BatteryLow,
            39 => Self::BatteryHot,
            40 => Self::ChargerFailed,
            41 => Self::BusVoltageLow,
            42 => Self::BusVoltageHigh,
            43 => Self::FrequencyLow,
            44 => Self::FrequencyHigh,
            45 => Self::EarthFault,
            46 => Self::BreakerTripped,
            47 => Self::TransformerHot,
            48 => Self::TransformerGas,
            49 => Self::GeneratorHot,
            50 => Self::GeneratorOverload,
            51 => Self::CondenserVacuumLow,
            52 => Self::FeedWaterLow,
            53 => Self::FeedPumpTripped,
            54 => Self::CoolantFlowLow,
            55 => Self::CoolantTemperatureHigh,
            56 => Self::ValveStuck,
            57 => Self::DrumLevelLow,
            58 => Self::DrumLevelHigh,
            59 => Self::SteamTemperatureHigh,
            60 => Self::SteamPressureHigh,
            61 => Self::FuelPressureLow,
            62 => Self::FuelLeak,
            63 => Self::FlameLost,
            64 => Self::FurnacePressureHigh,
            65 => Self::TurbineOverspeed,
            66 => Self::GasDetected,
            67 => Self::SmokeDetected,
            68 => Self::FireDetected,
            69 => Self::EmergencyStop,
            _ => {
                enumset::variants::is_below(val, 70);
                unreachable!()
            }
        }
    }

    ghost lawful = { lawful_in_place the_type (lawful_in_words the_type _ tt) };
}

impl EnumSetTypeWithRepr for Alarm {
    ghost use Rattle.std.proofs.Common.{rules};

    ghost narrow = { Prim.search rules };
}
