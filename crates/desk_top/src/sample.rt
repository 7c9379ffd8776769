/// The sample tables, which desk_main ships as `data/sample.toml`.
pub const SAMPLE_TABLES: &str =
    r#"# Tables of a lwdesk: the networks, servers, gateways and devices that it knows.
#
# Every EUI, NetID and key is hexadecimal text, with or without 0x in front. Keys that this file
# doesn't name are ignored, and so are comments. The desk reads the file once, when it starts.

# The desk itself.
[desk]
net_id = "000013"                   # its own NetID
join_euis = ["70b3d57ed0000001"]    # the JoinEUIs that it serves, 1 to 16
dl_settings = "80"                  # OptNeg is set, RX1DROffset is 0 and the second window's rate 0
rx_delay = 1                        # seconds from an uplink's end to the first receive window
# cf_list = ""                      # 16 bytes in 32 digits, the last one 00; none if it isn't there
# lifetime_s = 31536000             # how long session keys may be used, in seconds
# ask_s = 30                        # how long a question to a peer stays open, in seconds

# Other networks. The key `kek` wraps the session keys that a network is given (RFC 3394), and
# `kek_label` is the name by which its server knows that key.
[[network]]
net_id = "000014"
kek_label = "net-14"
kek = "000102030405060708090a0b0c0d0e0f"
address = "127.0.0.1:7014"

[[network]]
net_id = "000015"
kek_label = "net-15"
kek = "101112131415161718191a1b1c1d1e1f"
address = "127.0.0.1:7015"

[[network]]
net_id = "600005"
kek_label = "net-605"
kek = "202122232425262728292a2b2c2d2e2f"
address = "127.0.0.1:7605"

# Roaming agreements with them. A network without one may still be the home of devices.
[[agreement]]
net_id = "000014"
passive = "stateful"                # or "stateless", or "none"
passive_s = 600                     # how long a passive session lasts, in seconds
handover = true
handover_s = 3600                   # how long a handover lasts, in seconds
activation = true                   # whether devices may be activated while they roam

[[agreement]]
net_id = "600005"
passive = "stateless"
handover = false
activation = false

# Join servers of other networks, by their JoinEUI.
[[join_server]]
join_eui = "70b3d57ed0000002"
address = "127.0.0.1:7002"

# Applications. `kek` wraps the AppSKey that an application is given.
[[application]]
app_id = "a000000000000001"
kek_label = "app-1"
kek = "303132333435363738393a3b3c3d3e3f"

# Gateways that may send what they hear.
[[gateway]]
gateway_id = "b000000000000001"

[[gateway]]
gateway_id = "b000000000000002"

# Devices. Numbers 1 to 32 are at home in the desk's own network, and 33 to 40 in network 000014:
# the desk is their join server. These may be added to each:
#   roaming = true                  # whether it may roam
#   carry_app = false               # whether its AppSKey goes along with the session keys
#   profile_time = ""               # when its device profile was set

[[device]]
dev_eui = "70b3d57ed0001001"
join_eui = "70b3d57ed0000001"
nwk_key = "01010101010101010101010101010101"
app_key = "81818181818181818181818181818181"
home = "000013"
app = "a000000000000001"

[[device]]
dev_eui = "70b3d57ed0001002"
join_eui = "70b3d57ed0000001"
nwk_key = "02020202020202020202020202020202"
app_key = "82828282828282828282828282828282"
home = "000013"
app = "a000000000000001"

[[device]]
dev_eui = "70b3d57ed0001003"
join_eui = "70b3d57ed0000001"
nwk_key = "03030303030303030303030303030303"
app_key = "83838383838383838383838383838383"
home = "000013"
app = "a000000000000001"

[[device]]
dev_eui = "70b3d57ed0001004"
join_eui = "70b3d57ed0000001"
nwk_key = "04040404040404040404040404040404"
app_key = "84848484848484848484848484848484"
home = "000013"
app = "a000000000000001"

[[device]]
dev_eui = "70b3d57ed0001005"
join_eui = "70b3d57ed0000001"
nwk_key = "05050505050505050505050505050505"
app_key = "85858585858585858585858585858585"
home = "000013"
app = "a000000000000001"

[[device]]
dev_eui = "70b3d57ed0001006"
join_eui = "70b3d57ed0000001"
nwk_key = "06060606060606060606060606060606"
app_key = "86868686868686868686868686868686"
home = "000013"
app = "a000000000000001"

[[device]]
dev_eui = "70b3d57ed0001007"
join_eui = "70b3d57ed0000001"
nwk_key = "07070707070707070707070707070707"
app_key = "87878787878787878787878787878787"
home = "000013"
app = "a000000000000001"

[[device]]
dev_eui = "70b3d57ed0001008"
join_eui = "70b3d57ed0000001"
nwk_key = "08080808080808080808080808080808"
app_key = "88888888888888888888888888888888"
home = "000013"
app = "a000000000000001"

[[device]]
dev_eui = "70b3d57ed0001009"
join_eui = "70b3d57ed0000001"
nwk_key = "09090909090909090909090909090909"
app_key = "89898989898989898989898989898989"
home = "000013"
app = "a000000000000001"

[[device]]
dev_eui = "70b3d57ed000100a"
join_eui = "70b3d57ed0000001"
nwk_key = "0a0a0a0a0a0a0a0a0a0a0a0a0a0a0a0a"
app_key = "8a8a8a8a8a8a8a8a8a8a8a8a8a8a8a8a"
home = "000013"
app = "a000000000000001"

[[device]]
dev_eui = "70b3d57ed000100b"
join_eui = "70b3d57ed0000001"
nwk_key = "0b0b0b0b0b0b0b0b0b0b0b0b0b0b0b0b"
app_key = "8b8b8b8b8b8b8b8b8b8b8b8b8b8b8b8b"
home = "000013"
app = "a000000000000001"

[[device]]
dev_eui = "70b3d57ed000100c"
join_eui = "70b3d57ed0000001"
nwk_key = "0c0c0c0c0c0c0c0c0c0c0c0c0c0c0c0c"
app_key = "8c8c8c8c8c8c8c8c8c8c8c8c8c8c8c8c"
home = "000013"
app = "a000000000000001"

[[device]]
dev_eui = "70b3d57ed000100d"
join_eui = "70b3d57ed0000001"
nwk_key = "0d0d0d0d0d0d0d0d0d0d0d0d0d0d0d0d"
app_key = "8d8d8d8d8d8d8d8d8d8d8d8d8d8d8d8d"
home = "000013"
app = "a000000000000001"

[[device]]
dev_eui = "70b3d57ed000100e"
join_eui = "70b3d57ed0000001"
nwk_key = "0e0e0e0e0e0e0e0e0e0e0e0e0e0e0e0e"
app_key = "8e8e8e8e8e8e8e8e8e8e8e8e8e8e8e8e"
home = "000013"
app = "a000000000000001"

[[device]]
dev_eui = "70b3d57ed000100f"
join_eui = "70b3d57ed0000001"
nwk_key = "0f0f0f0f0f0f0f0f0f0f0f0f0f0f0f0f"
app_key = "8f8f8f8f8f8f8f8f8f8f8f8f8f8f8f8f"
home = "000013"
app = "a000000000000001"

[[device]]
dev_eui = "70b3d57ed0001010"
join_eui = "70b3d57ed0000001"
nwk_key = "10101010101010101010101010101010"
app_key = "90909090909090909090909090909090"
home = "000013"
app = "a000000000000001"

[[device]]
dev_eui = "70b3d57ed0001011"
join_eui = "70b3d57ed0000001"
nwk_key = "11111111111111111111111111111111"
app_key = "91919191919191919191919191919191"
home = "000013"
app = "a000000000000001"

[[device]]
dev_eui = "70b3d57ed0001012"
join_eui = "70b3d57ed0000001"
nwk_key = "12121212121212121212121212121212"
app_key = "92929292929292929292929292929292"
home = "000013"
app = "a000000000000001"

[[device]]
dev_eui = "70b3d57ed0001013"
join_eui = "70b3d57ed0000001"
nwk_key = "13131313131313131313131313131313"
app_key = "93939393939393939393939393939393"
home = "000013"
app = "a000000000000001"

[[device]]
dev_eui = "70b3d57ed0001014"
join_eui = "70b3d57ed0000001"
nwk_key = "14141414141414141414141414141414"
app_key = "94949494949494949494949494949494"
home = "000013"
app = "a000000000000001"

[[device]]
dev_eui = "70b3d57ed0001015"
join_eui = "70b3d57ed0000001"
nwk_key = "15151515151515151515151515151515"
app_key = "95959595959595959595959595959595"
home = "000013"
app = "a000000000000001"

[[device]]
dev_eui = "70b3d57ed0001016"
join_eui = "70b3d57ed0000001"
nwk_key = "16161616161616161616161616161616"
app_key = "96969696969696969696969696969696"
home = "000013"
app = "a000000000000001"

[[device]]
dev_eui = "70b3d57ed0001017"
join_eui = "70b3d57ed0000001"
nwk_key = "17171717171717171717171717171717"
app_key = "97979797979797979797979797979797"
home = "000013"
app = "a000000000000001"

[[device]]
dev_eui = "70b3d57ed0001018"
join_eui = "70b3d57ed0000001"
nwk_key = "18181818181818181818181818181818"
app_key = "98989898989898989898989898989898"
home = "000013"
app = "a000000000000001"

[[device]]
dev_eui = "70b3d57ed0001019"
join_eui = "70b3d57ed0000001"
nwk_key = "19191919191919191919191919191919"
app_key = "99999999999999999999999999999999"
home = "000013"
app = "a000000000000001"

[[device]]
dev_eui = "70b3d57ed000101a"
join_eui = "70b3d57ed0000001"
nwk_key = "1a1a1a1a1a1a1a1a1a1a1a1a1a1a1a1a"
app_key = "9a9a9a9a9a9a9a9a9a9a9a9a9a9a9a9a"
home = "000013"
app = "a000000000000001"

[[device]]
dev_eui = "70b3d57ed000101b"
join_eui = "70b3d57ed0000001"
nwk_key = "1b1b1b1b1b1b1b1b1b1b1b1b1b1b1b1b"
app_key = "9b9b9b9b9b9b9b9b9b9b9b9b9b9b9b9b"
home = "000013"
app = "a000000000000001"

[[device]]
dev_eui = "70b3d57ed000101c"
join_eui = "70b3d57ed0000001"
nwk_key = "1c1c1c1c1c1c1c1c1c1c1c1c1c1c1c1c"
app_key = "9c9c9c9c9c9c9c9c9c9c9c9c9c9c9c9c"
home = "000013"
app = "a000000000000001"

[[device]]
dev_eui = "70b3d57ed000101d"
join_eui = "70b3d57ed0000001"
nwk_key = "1d1d1d1d1d1d1d1d1d1d1d1d1d1d1d1d"
app_key = "9d9d9d9d9d9d9d9d9d9d9d9d9d9d9d9d"
home = "000013"
app = "a000000000000001"

[[device]]
dev_eui = "70b3d57ed000101e"
join_eui = "70b3d57ed0000001"
nwk_key = "1e1e1e1e1e1e1e1e1e1e1e1e1e1e1e1e"
app_key = "9e9e9e9e9e9e9e9e9e9e9e9e9e9e9e9e"
home = "000013"
app = "a000000000000001"

[[device]]
dev_eui = "70b3d57ed000101f"
join_eui = "70b3d57ed0000001"
nwk_key = "1f1f1f1f1f1f1f1f1f1f1f1f1f1f1f1f"
app_key = "9f9f9f9f9f9f9f9f9f9f9f9f9f9f9f9f"
home = "000013"
app = "a000000000000001"

[[device]]
dev_eui = "70b3d57ed0001020"
join_eui = "70b3d57ed0000001"
nwk_key = "20202020202020202020202020202020"
app_key = "a0a0a0a0a0a0a0a0a0a0a0a0a0a0a0a0"
home = "000013"
app = "a000000000000001"

[[device]]
dev_eui = "70b3d57ed0001021"
join_eui = "70b3d57ed0000001"
nwk_key = "21212121212121212121212121212121"
app_key = "a1a1a1a1a1a1a1a1a1a1a1a1a1a1a1a1"
home = "000014"
app = "a000000000000001"

[[device]]
dev_eui = "70b3d57ed0001022"
join_eui = "70b3d57ed0000001"
nwk_key = "22222222222222222222222222222222"
app_key = "a2a2a2a2a2a2a2a2a2a2a2a2a2a2a2a2"
home = "000014"
app = "a000000000000001"

[[device]]
dev_eui = "70b3d57ed0001023"
join_eui = "70b3d57ed0000001"
nwk_key = "23232323232323232323232323232323"
app_key = "a3a3a3a3a3a3a3a3a3a3a3a3a3a3a3a3"
home = "000014"
app = "a000000000000001"

[[device]]
dev_eui = "70b3d57ed0001024"
join_eui = "70b3d57ed0000001"
nwk_key = "24242424242424242424242424242424"
app_key = "a4a4a4a4a4a4a4a4a4a4a4a4a4a4a4a4"
home = "000014"
app = "a000000000000001"

[[device]]
dev_eui = "70b3d57ed0001025"
join_eui = "70b3d57ed0000001"
nwk_key = "25252525252525252525252525252525"
app_key = "a5a5a5a5a5a5a5a5a5a5a5a5a5a5a5a5"
home = "000014"
app = "a000000000000001"

[[device]]
dev_eui = "70b3d57ed0001026"
join_eui = "70b3d57ed0000001"
nwk_key = "26262626262626262626262626262626"
app_key = "a6a6a6a6a6a6a6a6a6a6a6a6a6a6a6a6"
home = "000014"
app = "a000000000000001"

[[device]]
dev_eui = "70b3d57ed0001027"
join_eui = "70b3d57ed0000001"
nwk_key = "27272727272727272727272727272727"
app_key = "a7a7a7a7a7a7a7a7a7a7a7a7a7a7a7a7"
home = "000014"
app = "a000000000000001"

[[device]]
dev_eui = "70b3d57ed0001028"
join_eui = "70b3d57ed0000001"
nwk_key = "28282828282828282828282828282828"
app_key = "a8a8a8a8a8a8a8a8a8a8a8a8a8a8a8a8"
home = "000014"
app = "a000000000000001"
"#;
