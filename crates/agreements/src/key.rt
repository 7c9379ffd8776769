ghost use Rattle.std.specs.Prelude.{◌≡◌};
ghost use Rattle.agreements.specs.Keys.{key_name};

/// A key of a row.
#[derive(Clone, Copy)]
pub(crate) enum Key {
    NetId,
    JoinEuis,
    DlSettings,
    RxDelay,
    CfList,
    LifetimeS,
    AskS,
    KekLabel,
    Kek,
    Address,
    Passive,
    PassiveS,
    Handover,
    HandoverS,
    Activation,
    JoinEui,
    AppId,
    GatewayId,
    DevEui,
    NwkKey,
    AppKey,
    Home,
    App,
    Roaming,
    CarryApp,
    ProfileTime,
}

impl Key {
    /// As the file spells it.
    pub(crate) fn name(self) -> &'static str
        ensures { result.now ≡ key_name self }
    {
        match self {
            Key::NetId => "net_id",
            Key::JoinEuis => "join_euis",
            Key::DlSettings => "dl_settings",
            Key::RxDelay => "rx_delay",
            Key::CfList => "cf_list",
            Key::LifetimeS => "lifetime_s",
            Key::AskS => "ask_s",
            Key::KekLabel => "kek_label",
            Key::Kek => "kek",
            Key::Address => "address",
            Key::Passive => "passive",
            Key::PassiveS => "passive_s",
            Key::Handover => "handover",
            Key::HandoverS => "handover_s",
            Key::Activation => "activation",
            Key::JoinEui => "join_eui",
            Key::AppId => "app_id",
            Key::GatewayId => "gateway_id",
            Key::DevEui => "dev_eui",
            Key::NwkKey => "nwk_key",
            Key::AppKey => "app_key",
            Key::Home => "home",
            Key::App => "app",
            Key::Roaming => "roaming",
            Key::CarryApp => "carry_app",
            Key::ProfileTime => "profile_time",
        }
    }
}
