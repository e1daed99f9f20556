ghost use Rattle.std.specs.Prelude.{◌≡◌, ◌≤◌, length};
ghost use Rattle.pes_time.specs.Pes.{pts_of, pts_field};

use ts_packet::Packet;

/// The PTS that a packet brings, in ticks of 1/90000 s, 33 bits (ISO/IEC 13818-1, 2.4.3.6 and 2.4.3.7).
///
/// None where the packet is scrambled, or where its payload doesn't begin as a PES packet of video that has a PTS, all
/// 14 bytes of it: the start code, stream_id E0 to EF, '10', PTS_DTS_flags 10 or 11, and PES_header_data_length of at
/// least 5. The four bits before the PTS and the markers between its parts aren't looked at, nor is
/// payload_unit_start_indicator.
#[tactic(auto, unfolding(crate::specs::Pes::pts_of))]
pub fn pts(packet: &Packet) -> Option<u64>
    ensures { result ≡ pts_of packet.now }
{
    if packet.scrambled() {
        return None;
    }
    let payload = packet.payload();
    if !has_pts(payload) {
        return None;
    }
    Some(pts_number(payload))
}

fn has_pts(payload: &[u8]) -> bool
    ensures { result ≡ Rattle.pes_time.specs.Pes.has_pts payload.now }
{
    payload.len() >= 14 && starts_video(payload) && tells_pts(payload)
}

/// The start code, and the stream_id of a video stream.
fn starts_video(payload: &[u8]) -> bool
    requires { 14 ≤ length payload.now }
    ensures { result ≡ Rattle.pes_time.specs.Pes.starts_video payload.now }
{
    payload[0] == 0 && payload[1] == 0 && payload[2] == 1 && payload[3] >> 4 == 0x0E
}

/// The flags say that a PTS follows, and there is room for it.
fn tells_pts(payload: &[u8]) -> bool
    requires { 14 ≤ length payload.now }
    ensures { result ≡ Rattle.pes_time.specs.Pes.tells_pts payload.now }
{
    payload[6] >> 6 == 2 && payload[7] >> 6 >= 2 && payload[8] >= 5
}

fn pts_number(payload: &[u8]) -> u64
    requires { 14 ≤ length payload.now }
    ensures { result ≡ Rattle.pes_time.specs.Pes.pts_number (pts_field payload.now) }
{
    let high = u64::from(payload[9] >> 1 & 7);
    let middle = u64::from(u16::from_be_bytes([payload[10], payload[11]]) >> 1);
    let low = u64::from(u16::from_be_bytes([payload[12], payload[13]]) >> 1);
    (high << 30) + (middle << 15) + low
}
