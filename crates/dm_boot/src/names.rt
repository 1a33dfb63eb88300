//! Names.
ghost use Rattle.std.specs.Prelude.{◌≡◌};
ghost use Rattle.std.specs.List.{list_all};
ghost use Rattle.dm_asm.specs.Numbers.{is_name_part};
ghost use Rattle.dm_boot.specs.Text.{is_boot_name, is_manager, is_server_name, is_switchboard};

/// Whether a text is a name: 1 to 16 of `a` to `z`, `0` to `9` and `_`.
pub fn is_name(text: &str) -> bool
    ensures { result ≡ is_boot_name text.now }
{
    let len = text.len();
    1 <= len && len <= 16 && are_name_bytes(text.as_bytes())
}

fn are_name_bytes(bytes: &[u8]) -> bool
    ensures { result ≡ list_all is_name_part bytes.now }
{
    bytes.iter().all(|b| is_name_byte(*b))
}

fn is_name_byte(b: u8) -> bool
    ensures { result ≡ is_name_part b }
{
    b'a' <= b && b <= b'z' || b'0' <= b && b <= b'9' || b == b'_'
}

/// Whether a name is the switchboard's.
pub fn is_switchboard(name: &str) -> bool
    ensures { result ≡ is_switchboard name.now }
{
    name == "switchboard"
}

/// Whether a name is the process manager's.
pub fn is_manager(name: &str) -> bool
    ensures { result ≡ is_manager name.now }
{
    name == "manager"
}

/// Whether a name is a server's.
#[tactic(auto, unfolding(crate::specs::Text::is_server_name))]
pub fn is_server(name: &str) -> bool
    ensures { result ≡ is_server_name name.now }
{
    is_switchboard(name) || is_manager(name)
}
