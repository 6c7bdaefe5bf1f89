//! The allowed values for each key of a configuration, as in booth.conf(5).

use booth_conf::ConfKey;

const SECONDS: &str = "a whole number of seconds from 1 to 10000000";

const ADDRESS: &str =
    "an IPv4 or IPv6 address, as 192.0.2.10 or 2001:db8::10; names are not resolved";

const PATH: &str = "a path of 1 to 255 bytes";

const TEXT: &str = "a text of at most 255 bytes";

/// Returns the allowed values for this key.
pub(crate) fn allowed(key: ConfKey) -> &'static str {
    match key {
        ConfKey::Port => "a whole number from 1 to 65535",
        ConfKey::Transport => "UDP or udp",
        ConfKey::Authfile | ConfKey::AuthfileOld => PATH,
        ConfKey::Debug | ConfKey::SiteUser | ConfKey::SiteGroup => TEXT,
        ConfKey::ArbitratorUser | ConfKey::ArbitratorGroup => TEXT,
        ConfKey::Site | ConfKey::Arbitrator => ADDRESS,
        ConfKey::Ticket => "a name of 1 to 63 printing characters of ASCII, without blanks",
        ConfKey::Maxtimeskew | ConfKey::Expire | ConfKey::Timeout | ConfKey::RenewalFreq => SECONDS,
        ConfKey::AcquireAfter => "a whole number of seconds from 0 to 10000000",
        ConfKey::Retries => "a whole number from 3 to 100",
        ConfKey::Weights => "up to 16 whole numbers from 0 to 1000000000, separated by commas",
        ConfKey::BeforeAcquireHandler => "a program with its arguments, of 1 to 255 bytes",
        ConfKey::AttrPrereq =>
            "KIND NAME eq VALUE, or KIND NAME ne VALUE, where KIND is auto or manual",
        ConfKey::Mode => "auto or manual",
        ConfKey::Authhash => "sha1 or sha256",
        ConfKey::Steady => "yes or no",
    }
}
